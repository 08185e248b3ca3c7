// The hub (§8, §9): decode data of a reader, joined to messages, one event at a time.
#![tactic(auto)]

ghost use Rattle.std.specs.Prelude.{◌+◌, ◌≤◌, ◌≡◌, length, take};
ghost use Rattle.packet.specs.Opcodes.{host};
ghost use Rattle.packet.specs.Packet.{seal, head_in, reply_body};
ghost use Rattle.packet.specs.Refusals.{nak_bytes};
ghost use Rattle.packet.specs.Sizes.{message_size};
ghost use Rattle.framer.specs.Halves.{received_in};
ghost use Rattle.hub.specs.Joiner.{join_step, type_in, piece_in};
ghost use Rattle.hub.specs.Hub.{decode_step, packet_step};
ghost use Rattle.hub.specs.Promises.{hub_answer_size, Closed, SwitchedOn, Hears, NoRoom, Cleared, name_bytes, Writes, Steps, Stays, Receives, Settles, Accepts, Sound, Gatherings, Within, Unchanged, Bars, OtherType, Joins, Adds, Keeps, HandsOut, joiner_of};

use framer::{Event, Found, Halves, LINE_SIZE, Listened};
use packet::{DECODE_DATA, HOST, Head, MESSAGE_SIZE, READER, Refusal, Reply};

// What every event asks of the answer room.
pub const HUB_ANSWER_SIZE: usize = packet::ANSWER_SIZE;

// The most bytes that one call takes (`mk_hub_hear_block`).
pub const BLOCK_SIZE: usize = 4096;

// What is gathered of a message: whether one is begun, its code type, and how many bytes wait in the gather buffer.
// Flags and numbers are kept apart: an exported control value keeps each of its bytes, also ones that no run leaves.
#[derive(Clone, Copy)]
pub struct Gathering {
    pub barred: bool,
    pub begun: bool,
    pub code: u8,
    pub count: usize,
}

// The hub's control value: the line with its last accepted packet, and what is gathered.
#[derive(Clone, Copy)]
pub struct Hub {
    pub line: Halves,
    pub gathering: Gathering,
}

// What an event brought.
// Five outcomes: a Result would tell only the refusal from the rest.
#[derive(Clone, Copy)]
pub enum Told {
    Nothing,
    // a piece was added
    Added,
    // a resent equal, acknowledged and not added
    Repeated,
    // the message in the message room is whole
    Message { code: u8, count: usize },
    Refused(Refusal),
}

// What became of an event.
#[derive(Clone, Copy)]
pub struct Taken {
    pub hub: Hub,
    pub told: Told,
    // so many bytes stand in the answer room
    pub answer: usize,
}

// What is gathered, put in order: the gather buffer holds it, and where no message is begun it is nothing.
#[derive(Clone, Copy)]
struct Held {
    gathering: Gathering,
    ghost sound: { Sound gathering },
}

// A packet that came, and the last accepted one.
#[derive(Clone, Copy)]
struct Packets<'a> {
    head: Head,
    body: &'a [u8],
    last: &'a [u8],
    ghost headed: { head ≡ head_in body.now },
}

#[derive(Clone, Copy)]
struct Joined {
    gathering: Gathering,
    told: Told,
}

#[derive(Clone, Copy)]
struct Stepped {
    hub: Hub,
    told: Told,
}

// A hub just switched on.
pub fn switched_on() -> Hub
    ensures { SwitchedOn result }
{
    Hub {
        line: framer::idle_halves(),
        gathering: closed(false),
    }
}

// Nothing gathered.
fn closed(barred: bool) -> Gathering
    ensures { Closed barred result }
{
    Gathering {
        barred,
        begun: false,
        code: 0,
        count: 0,
    }
}

// One event. With an answer room under HUB_ANSWER_SIZE or a message room under MESSAGE_SIZE it is not taken.
pub fn hear(
    hub: Hub,
    line: &mut [u8; LINE_SIZE],
    gather: &mut [u8; MESSAGE_SIZE],
    answer: &mut [u8],
    message: &mut [u8],
    event: Event,
) -> Taken
    ensures { Hears hub line.old gather.old answer.old message.old event result line.new gather.new answer.new message.new }
{
    let Some(answer) = answer.first_chunk_mut::<HUB_ANSWER_SIZE>() else {
        return no_room(hub);
    };
    let Some(message) = message.first_chunk_mut::<MESSAGE_SIZE>() else {
        return no_room(hub);
    };
    let Stepped { hub, told } = step(hub, line, gather, message, event);
    let answer = reply(told, answer);
    Taken {
        hub: cleared(hub, event),
        told,
        answer,
    }
}

// The event is not taken.
fn no_room(hub: Hub) -> Taken
    ensures { NoRoom hub result }
{
    Taken {
        hub,
        told: Told::Refused(Refusal::Room),
        answer: 0,
    }
}

// A message gap clears everything.
fn cleared(hub: Hub, event: Event) -> Hub
    ensures { Cleared hub event result }
{
    match event {
        Event::Byte(_) | Event::CharacterGap => hub,
        Event::MessageGap => switched_on(),
    }
}

// ACK or NAK for what is told, and how many bytes it has.
#[tactic(auto, unfolding(words::specs::Lists::over))]
fn reply(told: Told, answer: &mut [u8; HUB_ANSWER_SIZE]) -> usize
    ensures { Writes (name_bytes told) answer.old result answer.new }
{
    match told {
        Told::Nothing => 0,
        Told::Added | Told::Repeated | Told::Message { .. } => acknowledge(answer),
        Told::Refused(refusal) => refuse(refusal, answer),
    }
}

fn acknowledge(answer: &mut [u8; HUB_ANSWER_SIZE]) -> usize
    ensures { Writes (seal (reply_body host Reply.Ack)) answer.old result answer.new }
{
    packet::size_of(packet::answer(answer, HOST, Reply::Ack))
}

fn refuse(refusal: Refusal, answer: &mut [u8; HUB_ANSWER_SIZE]) -> usize
    ensures { Writes (nak_bytes host refusal) answer.old result answer.new }
{
    packet::size_of(packet::nak(answer, HOST, refusal))
}

// The framer takes the event; a packet goes on to the joining. Where it tells nothing, what is gathered is left as it was read.
fn step(
    hub: Hub,
    line: &mut [u8; LINE_SIZE],
    gather: &mut [u8; MESSAGE_SIZE],
    message: &mut [u8; MESSAGE_SIZE],
    event: Event,
) -> Stepped
    ensures { Steps hub line.old gather.old message.old event result line.new gather.new message.new }
{
    let Listened { halves, found } = framer::listen(hub.line, line, event);
    match found {
        Found::Nothing => stay(halves, hub.gathering, Told::Nothing),
        Found::Refused(refusal) => stay(
            halves,
            sound(hub.gathering).gathering,
            Told::Refused(refusal),
        ),
        Found::Packet(head) => received(halves, sound(hub.gathering), head, line, gather, message),
    }
}

// Nothing for the joining.
fn stay(halves: Halves, gathering: Gathering, told: Told) -> Stepped
    ensures { Stays halves gathering told result }
{
    Stepped {
        hub: Hub {
            line: halves,
            gathering,
        },
        told,
    }
}

// A packet with this head stands in the half that receives. Where it is accepted it stays there, and the other half receives.
fn received(
    halves: Halves,
    held: Held,
    head: Head,
    line: &[u8; LINE_SIZE],
    gather: &mut [u8; MESSAGE_SIZE],
    message: &mut [u8; MESSAGE_SIZE],
) -> Stepped
    requires { head ≡ head_in (received_in halves line.now head.length) }
    ensures { Receives halves held.gathering head.length line.now gather.old message.old result gather.new message.new }
{
    let packets = Packets {
        head,
        body: framer::received(halves, line, head.length),
        last: framer::kept(halves, line),
    };
    let joined = judge(held, packets, gather, message);
    settle(halves, head.length, joined)
}

// The control value after a packet.
fn settle(halves: Halves, n: usize, joined: Joined) -> Stepped
    ensures { Settles halves n joined result }
{
    let Joined { gathering, told } = joined;
    let line = if accepted(told) {
        framer::accept(halves, n)
    } else {
        halves
    };
    stay(line, gathering, told)
}

fn accepted(told: Told) -> bool
    ensures { Accepts told result }
{
    matches!(told, Told::Added | Told::Message { .. })
}

// Any control value is taken: what the gather buffer cannot hold counts as nothing.
#[tactic(auto, unfolding(crate::specs::Promises::sound_of))]
fn sound(gathering: Gathering) -> Held
    ensures { Gatherings gathering result.gathering }
{
    if gathering.begun {
        return Held {
            gathering: Gathering {
                count: within(gathering.count),
                ..gathering
            },
        };
    }
    Held {
        gathering: closed(gathering.barred),
    }
}

// What the buffer cannot have is 0. The framer reads its two lengths by a function of its own, which is private there.
fn within(count: usize) -> usize
    ensures { Within count result }
{
    if count <= MESSAGE_SIZE { count } else { 0 }
}

// CMD_ACK and CMD_NAK do nothing; else 4 to 7 in rising order, then the joining.
// Gather and message are two parameters: in a struct lent by `&mut` (tried), the prover would be told nothing of how long they are.
fn judge(
    held: Held,
    packets: Packets,
    gather: &mut [u8; MESSAGE_SIZE],
    message: &mut [u8; MESSAGE_SIZE],
) -> Joined
    ensures { Joins (packet_step (joiner_of held.gathering packets.entry.last.now gather.old) packets.entry.body.now) gather.old message.old result gather.new message.new }
{
    let Head {
        opcode,
        source,
        status,
        ..
    } = packets.head;
    if packet::is_answer(opcode) {
        return unchanged(held.gathering, Told::Nothing);
    }
    if source != READER {
        return unchanged(held.gathering, Told::Refused(Refusal::Source));
    }
    if !packet::status_allowed(opcode, status) {
        return unchanged(held.gathering, Told::Refused(Refusal::Status));
    }
    if opcode != DECODE_DATA {
        return unchanged(held.gathering, Told::Refused(Refusal::Opcode));
    }
    decode(held, packets, gather, message)
}

// Six answers are made by it: written out, the struct would take four lines at each.
fn unchanged(gathering: Gathering, told: Told) -> Joined
    ensures { Unchanged gathering told result }
{
    Joined { gathering, told }
}

// The data, from the fifth byte on, is a code type and a piece.
fn decode(
    held: Held,
    packets: Packets,
    gather: &mut [u8; MESSAGE_SIZE],
    message: &mut [u8; MESSAGE_SIZE],
) -> Joined
    ensures { Joins (decode_step (joiner_of held.gathering packets.entry.last.now gather.old) packets.entry.body.now) gather.old message.old result gather.new message.new }
{
    let [code, piece @ ..] = packet::data_part(packets.body) else {
        return unchanged(held.gathering, Told::Refused(Refusal::Data));
    };
    join(held, packets, *code, piece, gather, message)
}

// In this order: bar, repeat, type, total.
fn join(
    held: Held,
    packets: Packets,
    code: u8,
    piece: &[u8],
    gather: &mut [u8; MESSAGE_SIZE],
    message: &mut [u8; MESSAGE_SIZE],
) -> Joined
    requires { (code ≡ type_in packets.body.now) × (piece.now ≡ piece_in packets.body.now) }
    ensures { Joins (join_step (joiner_of held.gathering packets.entry.last.now gather.old) packets.entry.body.now) gather.old message.old result gather.new message.new }
{
    if held.gathering.barred {
        return bar();
    }
    if packet::resent_equal(packets.last, packets.body) {
        return unchanged(held.gathering, Told::Repeated);
    }
    add(held, packets, code, piece, gather, message)
}

// Refusal 10 drops what was gathered and bars the hub.
fn bar() -> Joined
    ensures { Bars result }
{
    Joined {
        gathering: closed(true),
        told: Told::Refused(Refusal::Barred),
    }
}

fn add(
    held: Held,
    packets: Packets,
    code: u8,
    piece: &[u8],
    gather: &mut [u8; MESSAGE_SIZE],
    message: &mut [u8; MESSAGE_SIZE],
) -> Joined
    requires { (code ≡ type_in packets.body.now) × (piece.now ≡ piece_in packets.body.now) }
    ensures { Adds held.gathering packets.entry.body.now gather.old message.old result gather.new message.new }
{
    let at = held.gathering.count;
    if other_type(held.gathering, code) || piece.len() > MESSAGE_SIZE - at {
        return bar();
    }
    if packets.head.status / 2 % 2 == 0 {
        return hand_out(code, at, piece, gather, message);
    }
    keep(code, at, piece, gather)
}

// Another type inside a message.
fn other_type(gathering: Gathering, code: u8) -> bool
    ensures { OtherType gathering code result }
{
    gathering.begun && gathering.code != code
}

// A piece put behind those that wait.
fn keep(code: u8, at: usize, piece: &[u8], gather: &mut [u8; MESSAGE_SIZE]) -> Joined
    requires { at + length piece.now ≤ message_size }
    ensures { Keeps code at piece.now gather.old result gather.new }
{
    words::copy(piece, &mut gather[at..at + piece.len()]);
    Joined {
        gathering: Gathering {
            barred: false,
            begun: true,
            code,
            count: at + piece.len(),
        },
        told: Told::Added,
    }
}

// What waits and the last piece, handed out.
fn hand_out(
    code: u8,
    at: usize,
    piece: &[u8],
    gather: &[u8; MESSAGE_SIZE],
    message: &mut [u8; MESSAGE_SIZE],
) -> Joined
    requires { at + length piece.now ≤ message_size }
    ensures { HandsOut code at piece.now gather.now message.old result message.new }
{
    words::copy(&gather[..at], &mut message[..at]);
    words::copy(piece, &mut message[at..at + piece.len()]);
    Joined {
        gathering: closed(false),
        told: Told::Message {
            code,
            count: at + piece.len(),
        },
    }
}
