// A block of bytes at the hub (§22), over its control bytes. The bytes inside a packet are moved, the byte that ends it is an event of
// `mk_hub_hear`: a function that both called would be one more level on the stack of every single event.
ghost use Rattle.std.specs.Prelude.{◌≤◌, length};
ghost use Rattle.packet.specs.Sizes.{message_size};
ghost use Rattle.hub.specs.Promises.{hub_answer_size};
ghost use Rattle.motikhund.specs.Control.{hub_control_size};
ghost use Rattle.hub.specs.Block.{block_size};
ghost use Rattle.motikhund.specs.Blocks.{ReadsBytes, CarriesBytes, NamesNumber, LeavesNumber};

use crate::numbers::MESSAGE;
use hub::HUB_ANSWER_SIZE;

// What a block brought, in the five numbers that `mk_hub_hear_block` tells: an array or a tuple of them would not say which is which.
#[derive(Clone, Copy)]
pub(crate) struct Brought {
    pub(crate) told: u32,
    pub(crate) answer: usize,
    pub(crate) code: usize,
    pub(crate) count: usize,
    pub(crate) taken: usize,
}

// Packet by packet: bytes are taken until one brings an answer. A message that is complete, or too little room for another answer, leaves
// all of it at once.
pub(crate) fn read(
    control: &mut [u8],
    line: &mut [u8; framer::LINE_SIZE],
    gather: &mut [u8; packet::MESSAGE_SIZE],
    answer: &mut [u8],
    message: &mut [u8],
    bytes: &[u8],
) -> Brought
    requires { (hub_control_size ≤ length control.old) × (hub_answer_size ≤ length answer.old) × (message_size ≤ length message.old) × (length bytes.now ≤ block_size) }
    ensures { ReadsBytes control.old line.old gather.old answer.old message.old bytes.now result control.new line.new gather.new answer.new message.new }
{
    let mut told: u32 = 0;
    // Answer, code type and size of the message, as `mk_hub_hear` gives them.
    let mut one: [usize; 3] = [0; 3];
    let mut code = 0;
    let mut count = 0;
    let mut at = 0;
    let mut out = 0;
    // Two loops, left by a label, are the form that docs/PROTOCOL.md, §18, asks for; the place goes on by as many bytes as are carried, and is told.
    'packets: while at < bytes.len() {
        loop {
            at += carry(control, line, &bytes[at..]);
            if at == bytes.len() {
                break 'packets;
            }
            let event = u32::from(bytes[at]);
            let number = crate::mk_hub_hear(
                control,
                line,
                gather,
                &mut answer[out..],
                message,
                event,
                &mut one,
            );
            told = named(told, number);
            code = one[1];
            count = one[2];
            at += 1;
            out += one[0];
            if leaving(number, answer.len() - out) {
                break 'packets;
            }
            if one[0] != 0 {
                break;
            }
        }
    }
    Brought {
        told,
        answer: out,
        code,
        count,
        taken: at,
    }
}

// As many bytes as go in silence, into the line.
fn carry(control: &mut [u8], line: &mut [u8; framer::LINE_SIZE], bytes: &[u8]) -> usize
    requires { hub_control_size ≤ length control.old }
    ensures { CarriesBytes control.old line.old bytes.now result control.new line.new }
{
    let before = crate::control::hub(control);
    let taken = framer::take_in(before.line, line, bytes);
    let after = hub::Hub {
        line: taken.halves,
        ..before
    };
    crate::control::put_hub(after, control);
    taken.count
}

// What a block tells by name: a message, and refusals 1 and 2, as `mk_hub_hear` told their numbers.
fn named(before: u32, number: u32) -> u32
    ensures { NamesNumber before number result }
{
    match number {
        1 | 2 | MESSAGE => number,
        _ => before,
    }
}

// Whether a block is left behind what a byte brought, with so much of the answer room left.
fn leaving(number: u32, room: usize) -> bool
    ensures { LeavesNumber number room result }
{
    number == MESSAGE || room < HUB_ANSWER_SIZE
}
