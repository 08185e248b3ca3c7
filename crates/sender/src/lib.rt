// The reader's sender: a message cut into packets, each copied to the line until it is acknowledged.
#![tactic(auto)]

ghost use Rattle.std.specs.Prelude.{◌+◌, ◌≤◌, ◌<◌, ◌≡◌, true, false, ◌∷◌, length};
ghost use Rattle.packet.specs.Opcodes.{decode_data, reader};
ghost use Rattle.packet.specs.Packet.{body_of};
ghost use Rattle.packet.specs.Sizes.{packet_size, message_size};
ghost use Rattle.std.specs.Int.{from_bool};
ghost use Rattle.sender.specs.Pieces.{piece_size};
ghost use Rattle.sender.specs.Promises.{Idle, Starts, Hears, Waits, Heeds, NextSize, Sounds, Sized, Placed, Made, Refuses, Moves, Ends, Fails, Due, Out, Fills, Presents, Begins, OutSteps};

use packet::{DECODE_DATA, HEAD_SIZE, MESSAGE_SIZE, PACKET_SIZE, READER, Refusal};

// What a piece holds: the data of a packet without the code type.
const PIECE_SIZE: usize = packet::DATA_SIZE - 1;
// A piece that is cut one byte shorter.
const CUT_SIZE: usize = PIECE_SIZE - 1;
// How often a packet is resent at most.
const RESEND_LIMIT: usize = 2;

// The sender's control value. `at` is where the present piece starts in the message buffer, `size` how many bytes it has;
// `resends` counts those of the present packet, `copies` the marked copies of the message.
// The fields are the exported control bytes, which a call that does not move them gives back as they came, also ones that no run leaves;
// `sound` puts them in order where they are read.
#[derive(Clone, Copy)]
pub struct Sender {
    pub length: usize,
    pub at: usize,
    pub size: usize,
    pub resends: usize,
    pub copies: usize,
    pub out: bool,
    pub code: u8,
    // nothing is out, and the message before failed
    pub failed: bool,
    // nothing is out, and the message before was delivered: its last piece still stands in the buffer
    pub delivered: bool,
}

// What the sender hears of the host. Each of the four cases has a consequence of its own, and one carries a byte.
#[derive(Clone, Copy)]
pub enum Heard {
    Ack,
    Nak(u8),
    TimeOut,
    Nothing,
}

// What a call brought: a copy of so many bytes in the room, with whether a message gap is due before it; or a message's end with
// the number of its marked copies.
// Five outcomes, of which a refusal alone is an error; a Result would tell only it from the rest, and it comes with a control value too.
#[derive(Clone, Copy)]
pub enum Outcome {
    Nothing,
    Copy { size: usize, gap: bool },
    Delivered(usize),
    Failed(usize),
    Refused(Refusal),
}

// The control value after a call, and what the call brought. It is a struct of its own so that names say which of the two is read.
#[derive(Clone, Copy)]
pub struct Sending {
    pub sender: Sender,
    pub outcome: Outcome,
}

// A sender with a message out, as a run leaves it: the present piece is one of the message that stands in the buffer.
#[derive(Clone, Copy)]
struct Busy {
    sender: Sender,
    ghost out: { Out sender },
}

// A sender with nothing out, after a message that failed or not.
pub fn idle(failed: bool) -> Sender
    ensures { Idle failed result }
{
    Sender {
        out: false,
        code: 0,
        length: 0,
        at: 0,
        size: 0,
        resends: 0,
        copies: 0,
        failed,
        delivered: false,
    }
}

// Starts a message: it is copied, and the first copy of its first packet is written. The outcome says whether a message gap is
// due before it.
pub fn start(
    sender: Sender,
    buffer: &mut [u8; MESSAGE_SIZE],
    room: &mut [u8],
    code: u8,
    message: &[u8],
) -> Sending
    ensures { Starts sender buffer.old room.old code message.now result buffer.new room.new }
{
    let Some(packet) = room.first_chunk_mut::<PACKET_SIZE>() else {
        return refused(sender, Refusal::Room);
    };
    let now = sound(sender);
    if message.len() > MESSAGE_SIZE || now.out {
        return refused(sender, Refusal::Start);
    }
    begin(now, buffer, packet, code, message)
}

// One thing heard of the host.
// Here and in what it calls a choice of a value is an early return too: `else` was tried, and cost a reader's event 16 bytes of stack, of
// which it takes more than is wanted already.
// The hint puts it into `mk_reader_time_out`, where only a time-out is heard and the other ways fall away: as a call it takes up to twice the
// time there, and 376 bytes of stack in place of 104. Where anything may be heard it stays a call.
#[inline]
pub fn hear(sender: Sender, buffer: &[u8; MESSAGE_SIZE], room: &mut [u8], heard: Heard) -> Sending
    ensures { Hears sender buffer.now room.old heard result room.new }
{
    let Some(packet) = room.first_chunk_mut::<PACKET_SIZE>() else {
        return refused(sender, Refusal::Room);
    };
    let now = sound(sender);
    if now.out {
        return out_step(Busy { sender: now }, buffer, packet, heard);
    }
    Sending {
        sender: now,
        outcome: Outcome::Nothing,
    }
}

// Whether a message is out, and the sender waits for an answer.
pub fn waits(sender: Sender) -> bool
    ensures { Waits sender result }
{
    sound(sender).out
}

// What a sender heeds of a packet on the line: an ACK without data or a NAK with one byte, status 0 or 1, of the source that it heeds.
#[tactic(auto, unfolding(crate::specs::Sender::heed_of))]
pub fn heed(heeded: u8, opcode: u8, source: u8, status: u8, data: &[u8]) -> Heard
    ensures { Heeds heeded opcode source status «data».now result }
{
    if source != heeded || status > 1 {
        return Heard::Nothing;
    }
    match (opcode, data) {
        (packet::CMD_ACK, []) => Heard::Ack,
        (packet::CMD_NAK, [cause]) => Heard::Nak(*cause),
        _ => Heard::Nothing,
    }
}

// The last packet of the message before stands in the buffer until this one is copied over it.
fn begin(
    sender: Sender,
    buffer: &mut [u8; MESSAGE_SIZE],
    room: &mut [u8; PACKET_SIZE],
    code: u8,
    message: &[u8],
) -> Sending
    requires { (sender.at + sender.size ≤ message_size) × (length message.now ≤ message_size) }
    ensures { Begins sender buffer.old room.old code message.now result buffer.new room.new }
{
    let gap = gap_due(sender, buffer, code, message);
    words::copy(message, buffer);
    let next = Busy {
        sender: Sender {
            out: true,
            code,
            length: message.len(),
            size: next_size(&[], message),
            ..idle(false)
        },
    };
    let size = present(next, buffer, room, false);
    Sending {
        sender: next.sender,
        outcome: Outcome::Copy { size, gap },
    }
}

// Whether a message gap is due before a message: the one before failed, or its last packet is this message in one piece.
#[tactic(auto, using(crate::proofs::Copying::piece_compared), unfolding(crate::specs::Promises::due_of))]
fn gap_due(sender: Sender, buffer: &[u8; MESSAGE_SIZE], code: u8, message: &[u8]) -> bool
    requires { sender.at + sender.size ≤ message_size }
    ensures { Due sender buffer.now code message.now result }
{
    let piece = &buffer[sender.at..sender.at + sender.size];
    sender.failed || sender.delivered && sender.code == code && piece == message
}

// How many bytes of the rest the next piece holds, behind the piece before it.
fn next_size(before: &[u8], rest: &[u8]) -> usize
    ensures { NextSize before.now rest.now result }
{
    if rest.len() <= PIECE_SIZE {
        return rest.len();
    }
    let full = &rest[..PIECE_SIZE];
    if before == full { CUT_SIZE } else { PIECE_SIZE }
}

// What is refused changes nothing.
fn refused(sender: Sender, refusal: Refusal) -> Sending
    ensures { Refuses sender refusal result }
{
    Sending {
        sender,
        outcome: Outcome::Refused(refusal),
    }
}

// Any control value is taken: one that no run leaves is not out, and keeps no packet.
fn sound(sender: Sender) -> Sender
    ensures { Sounds sender result }
{
    if made(sender) {
        sender
    } else {
        idle(sender.failed)
    }
}

// Whether a run leaves this: a message out, with no more marked copies than its packets can have had, or the last piece of one
// that was delivered.
#[tactic(auto, using(crate::proofs::Placing::placed_starts), unfolding(crate::specs::Promises::made_of, crate::specs::Promises::counted_of))]
fn made(sender: Sender) -> bool
    ensures { Made sender result }
{
    if !placed(sender) {
        return false;
    }
    if sender.out {
        return sender.resends <= RESEND_LIMIT
            && sender.copies <= sender.at / CUT_SIZE * RESEND_LIMIT + sender.resends;
    }
    sender.delivered && sender.length - sender.at <= PIECE_SIZE
}

// Whether the piece lies within the buffer.
#[tactic(auto, unfolding(crate::specs::Promises::placed_of))]
fn placed(sender: Sender) -> bool
    ensures { Placed sender result }
{
    sender.length <= MESSAGE_SIZE
        && sender.at <= sender.length
        && sized(sender.length - sender.at, sender.size)
}

// Whether a piece can have this size, with so many bytes left of its message.
#[tactic(auto, unfolding(crate::specs::Promises::sized_of))]
fn sized(left: usize, size: usize) -> bool
    ensures { Sized left size result }
{
    if left <= PIECE_SIZE {
        return size == left;
    }
    (CUT_SIZE..=PIECE_SIZE).contains(&size)
}

// One step with a message out: NAK 1 resends as a time-out does, another cause fails at once.
fn out_step(
    busy: Busy,
    buffer: &[u8; MESSAGE_SIZE],
    room: &mut [u8; PACKET_SIZE],
    heard: Heard,
) -> Sending
    ensures { OutSteps busy.sender buffer.now room.old heard result room.new }
{
    match heard {
        Heard::Ack => onward(busy, buffer, room),
        Heard::Nak(cause) if cause != 1 => failed(busy.sender),
        Heard::TimeOut | Heard::Nak(_) => again(busy, buffer, room),
        Heard::Nothing => Sending {
            sender: busy.sender,
            outcome: Outcome::Nothing,
        },
    }
}

// ACK goes on to the next packet or reports delivered.
fn onward(busy: Busy, buffer: &[u8; MESSAGE_SIZE], room: &mut [u8; PACKET_SIZE]) -> Sending
    ensures { OutSteps busy.sender buffer.now room.old Heard.Ack result room.new }
{
    let sender = busy.sender;
    let end = sender.at + sender.size;
    if end < sender.length {
        let size = next_size(&buffer[sender.at..end], &buffer[end..sender.length]);
        let next = Busy {
            sender: Sender {
                at: end,
                size,
                resends: 0,
                ..moved(busy)
            },
        };
        let size = present(next, buffer, room, false);
        return Sending {
            sender: next.sender,
            outcome: Outcome::Copy { size, gap: false },
        };
    }
    ended(sender)
}

// The present packet again, with bit 0 set, as often as it may be; then failed.
fn again(busy: Busy, buffer: &[u8; MESSAGE_SIZE], room: &mut [u8; PACKET_SIZE]) -> Sending
    ensures { OutSteps busy.sender buffer.now room.old Heard.TimeOut result room.new }
{
    let sender = busy.sender;
    if sender.resends < RESEND_LIMIT {
        let next = Busy {
            sender: Sender {
                resends: sender.resends + 1,
                copies: sender.copies + 1,
                ..moved(busy)
            },
        };
        let size = present(next, buffer, room, true);
        return Sending {
            sender: next.sender,
            outcome: Outcome::Copy { size, gap: false },
        };
    }
    failed(sender)
}

// The message that is out, with nothing kept of the one before.
fn moved(busy: Busy) -> Sender
    ensures { Moves busy.sender busy.sender.at busy.sender.size busy.sender.resends busy.sender.copies result }
{
    Sender {
        failed: false,
        delivered: false,
        ..busy.sender
    }
}

// Delivered: the last piece is kept, to be compared with the message that comes next.
fn ended(sender: Sender) -> Sending
    ensures { Ends sender result }
{
    Sending {
        sender: Sender {
            out: false,
            resends: 0,
            copies: 0,
            failed: false,
            delivered: true,
            ..sender
        },
        outcome: Outcome::Delivered(sender.copies),
    }
}

fn failed(sender: Sender) -> Sending
    ensures { Fails sender result }
{
    Sending {
        sender: idle(true),
        outcome: Outcome::Failed(sender.copies),
    }
}

// A copy of the present packet, marked or not, and its size. It gives no sender back, so that none is moved for it.
fn present(
    busy: Busy,
    buffer: &[u8; MESSAGE_SIZE],
    room: &mut [u8; PACKET_SIZE],
    marked: bool,
) -> usize
    ensures { Presents busy.sender buffer.now (from_bool marked) room.old result room.new }
{
    let sender = busy.sender;
    let end = sender.at + sender.size;
    let status = u8::from(end < sender.length) * 2 + u8::from(marked);
    copy(sender.code, &buffer[sender.at..end], room, status)
}

// The type and the piece go into the room behind the header's place, then header and checksum around them.
fn copy(code: u8, piece: &[u8], room: &mut [u8; PACKET_SIZE], status: u8) -> usize
    requires { (length piece.now ≤ piece_size) × (status < 4) }
    ensures { Fills (body_of decode_data reader status (code ∷ piece.now)) room.old result room.new }
{
    let count = piece.len() + 1;
    room[HEAD_SIZE] = code;
    words::copy(piece, &mut room[HEAD_SIZE + 1..HEAD_SIZE + count]);
    packet::size_of(packet::fill(room, DECODE_DATA, READER, status, count))
}
