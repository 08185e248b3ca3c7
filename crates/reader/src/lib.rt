// The reader's whole end of the line: framer, commands with the parameter table, and sender.
#![tactic(auto)]

ghost use Rattle.std.specs.Prelude.{◌≤◌, ◌≡◌, length};
ghost use Rattle.packet.specs.Opcodes as opcode;
ghost use Rattle.packet.specs.Packet.{seal, reply_body};
ghost use Rattle.packet.specs.Refusals.{nak_bytes};
ghost use Rattle.packet.specs.Sizes.{head_size, body_size};
ghost use Rattle.table.specs.Promises.{values_of};
ghost use Rattle.reader.specs.Reader.{reader_answer_size, judged_step, known_step, no_packet_step, refuses, if_handshake, request_bytes, answer_to};
ghost use Rattle.commands.specs.Promises.{device_of};
ghost use Rattle.reader.specs.Promises.{SwitchedOn, PowersUp, Loads, Hears, NoRoom, Starts, TimesOut, Quiet, SoundCore, Handshake, Writes, WithTable, StepOf, SentBy, Accepts, ToSender, Leaves, Judges, Performs, Again, Acts, Joined, Settles, Receives};

use commands::{Acted, Beep, Command, Device, Switches};
use framer::{Event, Found, Halves, LINE_SIZE, Listened};
use packet::{HOST, MESSAGE_SIZE, PACKET_SIZE, PARAM_SEND, READER, Refusal, Reply};
use sender::{Heard, Outcome, Sender, Sending};
use table::Table;

// The parameter that says whether ACK and NAK go out.
const HANDSHAKE: u8 = 0x9F;

// The longest answer: a PARAM_SEND with all parameters.
pub const READER_ANSWER_SIZE: usize = packet::HEAD_SIZE + table::PAIRS_SIZE + packet::CHECKSUM_SIZE;

// The reader's control value: the line with its last accepted packet, how long the answer to that one was, the device, the sender.
// The C interface gives back each control byte, so `last_answer` may be a length that no answer has; 0 is none.
#[derive(Clone, Copy)]
pub struct Reader {
    pub line: Halves,
    pub last_answer: usize,
    pub device: Device,
    pub sender: Sender,
}

// What an event brought of commands. Four cases, which no Option or Result tells apart.
#[derive(Clone, Copy)]
pub enum Told {
    Nothing,
    Refused(Refusal),
    // a command was acted on; the row of beeps that it reports, if one
    Acted(Option<Beep>),
    // a resent equal, answered again and not acted on
    Repeated,
}

// So many bytes stand in the answer room; the outcome is the sender's.
#[derive(Clone, Copy)]
pub struct Taken {
    pub reader: Reader,
    pub told: Told,
    pub answer: usize,
    pub outcome: Outcome,
}

// A struct of its own, so that names say which of the two is read.
#[derive(Clone, Copy)]
pub struct Started {
    pub reader: Reader,
    pub outcome: Outcome,
}

// A packet that came, and the last accepted one. As the hub's, but without the head, so that its fact is a length alone: the three fields that
// are judged are read at their places in the body.
#[derive(Clone, Copy)]
struct Packets<'a> {
    body: &'a [u8],
    last: &'a [u8],
    ghost headed: { head_size ≤ length body.now },
}

// The reader's control value without its line. The bound on `last_answer` is a short clause of five functions: as a ghost field here, each
// definition that puts a core together would have to prove it, and a step's promise speaks of cores that it bounds nowhere.
#[derive(Clone, Copy)]
struct Core {
    last_answer: usize,
    device: Device,
    sender: Sender,
}

// What `Taken` tells, before the line is put back to the core.
#[derive(Clone, Copy)]
struct Stepped {
    told: Told,
    core: Core,
    answer: usize,
    outcome: Outcome,
}

// A reader switched on with these permanent values.
pub fn switched_on(table: Table) -> Reader
    ensures { SwitchedOn table result }
{
    Reader {
        line: framer::idle_halves(),
        last_answer: 0,
        device: Device {
            table: table::power_up(table),
            switches: Switches {
                scanning: true,
                session: false,
                aim: false,
                led: false,
            },
        },
        sender: sender::idle(false),
    }
}

// Power-up copies permanent to present, clears framer and sender and forgets the last accepted packet.
pub fn power_up(reader: Reader) -> Reader
    ensures { PowersUp reader result }
{
    switched_on(reader.device.table)
}

// Reads a saved set: it replaces permanent and present values and the locks, and the last accepted packet is forgotten. 12 for bytes
// that are no form: the reader went by value, so the caller's own stays.
pub fn load(reader: Reader, form: &[u8]) -> Result<Reader, Refusal>
    ensures { Loads reader form.now result }
{
    let table = saved::load(form)?;
    Ok(with_table(reader, table))
}

// The reader with another table: values and locks are replaced, and the last accepted packet is forgotten.
pub fn with_table(reader: Reader, table: Table) -> Reader
    ensures { WithTable reader table result }
{
    Reader {
        line: Halves {
            last: 0,
            ..reader.line
        },
        last_answer: 0,
        device: Device {
            table,
            ..reader.device
        },
        ..reader
    }
}

// Starts a message.
pub fn start(
    reader: Reader,
    message: &mut [u8; MESSAGE_SIZE],
    copy: &mut [u8],
    code: u8,
    bytes: &[u8],
) -> Started
    ensures { Starts reader message.old copy.old code bytes.now result message.new copy.new }
{
    sent(
        reader,
        sender::start(reader.sender, message, copy, code, bytes),
    )
}

// The sender's response time-out.
pub fn time_out(reader: Reader, message: &[u8; MESSAGE_SIZE], copy: &mut [u8]) -> Started
    ensures { TimesOut reader message.now copy.old result copy.new }
{
    sent(
        reader,
        sender::hear(reader.sender, message, copy, Heard::TimeOut),
    )
}

// What the sender did; nothing else of the reader changes.
fn sent(reader: Reader, sending: Sending) -> Started
    ensures { SentBy reader sending result }
{
    Started {
        reader: Reader {
            sender: sending.sender,
            ..reader
        },
        outcome: sending.outcome,
    }
}

// One event of the line. Rooms: READER_ANSWER_SIZE bytes for answers, packet::PACKET_SIZE for copies.
pub fn hear(
    reader: Reader,
    line: &mut [u8; LINE_SIZE],
    answers: &mut [u8; READER_ANSWER_SIZE],
    message: &[u8; MESSAGE_SIZE],
    answer: &mut [u8],
    copy: &mut [u8],
    event: Event,
) -> Taken
    ensures { Hears reader line.old answers.old message.now answer.old copy.old event result line.new answers.new answer.new copy.new }
{
    let Some(answer) = answer.first_chunk_mut::<READER_ANSWER_SIZE>() else {
        return no_room(reader);
    };
    let Some(copy) = copy.first_chunk_mut::<PACKET_SIZE>() else {
        return no_room(reader);
    };
    let Listened { halves, found } = framer::listen(reader.line, line, event);
    match found {
        Found::Nothing => quiet(reader, halves),
        Found::Refused(refusal) => settle(
            halves,
            0,
            no_packet(sound_core(reader), refusal, answer),
        ),
        Found::Packet(head) => received(
            halves,
            sound_core(reader),
            head.length,
            line,
            answers,
            message,
            answer,
            copy,
        ),
    }
}

// The event is not taken.
fn no_room(reader: Reader) -> Taken
    ensures { NoRoom reader result }
{
    Taken {
        reader,
        told: Told::Refused(Refusal::Room),
        answer: 0,
        outcome: Outcome::Nothing,
    }
}

// The framer tells nothing: only its own part of the control value is written, and all else stays as it was read.
fn quiet(reader: Reader, halves: Halves) -> Taken
    ensures { Quiet reader halves result }
{
    Taken {
        reader: Reader {
            line: halves,
            ..reader
        },
        told: Told::Nothing,
        answer: 0,
        outcome: Outcome::Nothing,
    }
}

// Any control value is taken: an answer longer than its buffer is none. The framer and the hub do so of their lengths, each by its own limit.
fn sound_core(reader: Reader) -> Core
    ensures { SoundCore reader result }
{
    let last_answer = if reader.last_answer <= READER_ANSWER_SIZE {
        reader.last_answer
    } else {
        0
    };
    Core {
        last_answer,
        device: reader.device,
        sender: reader.sender,
    }
}

// A step that the sender has no part in.
fn step(core: Core, told: Told, answer: usize) -> Stepped
    ensures { StepOf core told answer result }
{
    Stepped {
        core,
        told,
        answer,
        outcome: Outcome::Nothing,
    }
}

// The control value after an event. An accepted command keeps its half of the line. Two returns: one behind an `if` takes 16 bytes of stack more.
fn settle(halves: Halves, n: usize, stepped: Stepped) -> Taken
    ensures { Settles halves n stepped result }
{
    if accepted(stepped.told) {
        return joined(framer::accept(halves, n), stepped);
    }
    joined(halves, stepped)
}

fn joined(line: Halves, stepped: Stepped) -> Taken
    ensures { Joined line stepped result }
{
    let core = stepped.core;
    Taken {
        reader: Reader {
            line,
            last_answer: core.last_answer,
            device: core.device,
            sender: core.sender,
        },
        told: stepped.told,
        answer: stepped.answer,
        outcome: stepped.outcome,
    }
}

fn accepted(told: Told) -> bool
    ensures { Accepts told result }
{
    matches!(told, Told::Acted(_))
}

// A packet of n bytes stands in the half that receives.
fn received(
    halves: Halves,
    core: Core,
    n: usize,
    line: &[u8; LINE_SIZE],
    answers: &mut [u8; READER_ANSWER_SIZE],
    message: &[u8; MESSAGE_SIZE],
    answer: &mut [u8; READER_ANSWER_SIZE],
    copy: &mut [u8; PACKET_SIZE],
) -> Taken
    requires { (core.last_answer ≤ reader_answer_size) × (head_size ≤ n) × (n ≤ body_size) }
    ensures { Receives halves core n line.now answers.old message.now answer.old copy.old result answers.new answer.new copy.new }
{
    let packets = Packets {
        body: framer::received(halves, line, n),
        last: framer::kept(halves, line),
    };
    if packet::is_answer(packets.body[1]) {
        return settle(halves, n, to_sender(core, packets, message, copy));
    }
    settle(halves, n, judge(core, packets, answers, answer))
}

// CMD_ACK and CMD_NAK go to the sender and are never refused.
fn to_sender(
    core: Core,
    packets: Packets,
    message: &[u8; MESSAGE_SIZE],
    copy: &mut [u8; PACKET_SIZE],
) -> Stepped
    ensures { ToSender core packets.entry.body.now message.now copy.old result copy.new }
{
    let body = packets.body;
    let heard = sender::heed(HOST, body[1], body[2], body[3], packet::data_part(body));
    // A copy of the sender alone: the whole core would stand in memory for the call.
    let before = core.sender;
    let sending = sender::hear(before, message, copy, heard);
    Stepped {
        core: Core {
            sender: sending.sender,
            ..core
        },
        told: Told::Nothing,
        answer: 0,
        outcome: sending.outcome,
    }
}

// A refusal of the framer. A reader whose sender waits for an answer sends nothing for it.
fn no_packet(core: Core, refusal: Refusal, answer: &mut [u8; READER_ANSWER_SIZE]) -> Stepped
    ensures { Leaves (λ s. no_packet_step s refusal) core answer.old result answer.new }
{
    if sender::waits(core.sender) {
        return step(core, Told::Refused(refusal), 0);
    }
    refuse(core, refusal, answer)
}

// A refusal is answered by NAK with its cause.
fn refuse(core: Core, refusal: Refusal, answer: &mut [u8; READER_ANSWER_SIZE]) -> Stepped
    ensures { Leaves (λ s. refuses s refusal) core answer.old result answer.new }
{
    let count = nak(core.device, refusal, answer);
    step(core, Told::Refused(refusal), count)
}

// ACK and NAK go out only if 9Fh is 1. Two functions: one would take what writes as a closure over the room, for one `if` less.
fn nak(device: Device, refusal: Refusal, answer: &mut [u8; READER_ANSWER_SIZE]) -> usize
    ensures { Writes (if_handshake (device_of device) (nak_bytes opcode.reader refusal)) answer.old result answer.new }
{
    if handshake(device) {
        return packet::size_of(packet::nak(answer, READER, refusal));
    }
    0
}

fn ack(device: Device, answer: &mut [u8; READER_ANSWER_SIZE]) -> usize
    ensures { Writes (if_handshake (device_of device) (seal (reply_body opcode.reader Reply.Ack))) answer.old result answer.new }
{
    if handshake(device) {
        return packet::size_of(packet::answer(answer, READER, Reply::Ack));
    }
    0
}

fn handshake(device: Device) -> bool
    ensures { Handshake device result }
{
    table::value(device.table, HANDSHAKE) == 1
}

// 4 to 6, then the command. The two buffers are two parameters: in a struct lent by `&mut` each contract would name them by two steps,
// `rooms.old.answers.now`.
fn judge(
    core: Core,
    packets: Packets,
    answers: &mut [u8; READER_ANSWER_SIZE],
    answer: &mut [u8; READER_ANSWER_SIZE],
) -> Stepped
    requires { core.last_answer ≤ reader_answer_size }
    ensures { Judges judged_step core packets.entry.body.now packets.entry.last.now answers.old answer.old result answers.new answer.new }
{
    let body = packets.body;
    if body[2] != HOST {
        return refuse(core, Refusal::Source, answer);
    }
    if !packet::status_allowed(body[1], body[3]) {
        return refuse(core, Refusal::Status, answer);
    }
    let Some(command) = commands::named_by(body[1]) else {
        return refuse(core, Refusal::Opcode, answer);
    };
    known(core, command, packets, answers, answer)
}

// A command that is known: 7, then a resent equal gets the same answer again, and any other is performed.
fn known(
    core: Core,
    command: Command,
    packets: Packets,
    answers: &mut [u8; READER_ANSWER_SIZE],
    answer: &mut [u8; READER_ANSWER_SIZE],
) -> Stepped
    requires { core.last_answer ≤ reader_answer_size }
    ensures { Judges (known_step command) core packets.entry.body.now packets.entry.last.now answers.old answer.old result answers.new answer.new }
{
    let body = packets.body;
    let data = packet::data_part(body);
    if !commands::length_allowed(command, data) {
        return refuse(core, Refusal::Data, answer);
    }
    if packet::resent_equal(packets.last, body) {
        return again(core, answers, answer);
    }
    perform(core, command, body[3], data, answers, answer)
}

// 8 and 9, or the command is acted on.
fn perform(
    core: Core,
    command: Command,
    status: u8,
    data: &[u8],
    answers: &mut [u8; READER_ANSWER_SIZE],
    answer: &mut [u8; READER_ANSWER_SIZE],
) -> Stepped
    requires { core.last_answer ≤ reader_answer_size }
    ensures { Performs core command status «data».now answers.old answer.old result answers.new answer.new }
{
    match commands::act(core.device, command, status, data) {
        Ok(acted) => act(core, acted, command, data, answers, answer),
        Err(refusal) => refuse(core, refusal, answer),
    }
}

// The same answer bytes as then.
fn again(
    core: Core,
    answers: &[u8; READER_ANSWER_SIZE],
    answer: &mut [u8; READER_ANSWER_SIZE],
) -> Stepped
    requires { core.last_answer ≤ reader_answer_size }
    ensures { Again core answers.now answer.old result answer.new }
{
    let count = core.last_answer;
    words::copy(&answers[..count], answer);
    step(core, Told::Repeated, count)
}

// The answer goes out, and is kept for a resend.
fn act(
    core: Core,
    acted: Acted,
    command: Command,
    data: &[u8],
    answers: &mut [u8; READER_ANSWER_SIZE],
    answer: &mut [u8; READER_ANSWER_SIZE],
) -> Stepped
    ensures { Acts core acted command «data».now answers.old answer.old result answers.new answer.new }
{
    let count = answer_to(core.device, command, data, answer);
    words::copy(&answer[..count], answers);
    let next = Core {
        last_answer: count,
        device: acted.device,
        ..core
    };
    step(next, Told::Acted(acted.beep), count)
}

// PARAM_REQUEST is answered by a PARAM_SEND in any case, the others by ACK.
fn answer_to(
    device: Device,
    command: Command,
    data: &[u8],
    answer: &mut [u8; READER_ANSWER_SIZE],
) -> usize
    ensures { Writes (answer_to (device_of device) command «data».now) answer.old result answer.new }
{
    match command {
        Command::ParamRequest => request(device.table, data, answer),
        _ => ack(device, answer),
    }
}

// The pairs are written into the middle of the room, after the header; then header and checksum are filled in around them.
// A match: `and_then` would lend the room to a closure, behind which the proof has no name for what stands in it.
fn request(table: Table, asked: &[u8], answer: &mut [u8; READER_ANSWER_SIZE]) -> usize
    ensures { Writes (request_bytes (values_of table) asked.now) answer.old result answer.new }
{
    match table::answer(table, asked, &mut answer[packet::HEAD_SIZE..]) {
        Ok(count) => packet::size_of(packet::fill(answer, PARAM_SEND, READER, 0, count)),
        Err(_) => 0,
    }
}
