// The library for other languages: every machine over bytes and numbers. The caller keeps a control value as bytes (`control`),
// what is told comes back as numbers (`numbers`), and no call trusts its caller: whatever is lent too small is number 13, with
// nothing changed; a number that names no event or reply does nothing.
// The shapes alike (four `_on` and `_idle`, four `_hear`, two `_start`, two `_power_up`, `_value` and `_locked`), and the numbers with values
// beside them, are the exported names of the C interface, which may not change. Each call sets its values to 0 by itself where it refuses: one
// function for it would need a const parameter and save a line.
#![tactic(auto)]

mod block;
mod control;
mod numbers;
mod tables;

ghost use Rattle.motikhund.specs.Promises.{PacketChecks, PacketBuilds, PacketAnswers, FramerIdle, FramerHears, GoesOn, HubOn, HubHears, HubHearsBlock, SenderIdle, SenderStarts, SenderHears, SenderWaits, SenderHeeds, ReaderOn, ReaderPowersUp, ReaderStarts, ReaderTimesOut, ReaderHears, ReaderValue, ReaderLocked, ReaderSaves, ReaderLoads, ReaderSwitches};
ghost use Rattle.motikhund.specs.Tables.{SetsTable, DefaultsTable, PowersUpTable, TakesOut, PutsBack};

use control::{
    FRAMER_CONTROL_SIZE, GOING_SIZE, HUB_CONTROL_SIZE, READER_CONTROL_SIZE, SENDER_CONTROL_SIZE,
};
use numbers::{PACKET, WAITING, WRITTEN};
use packet::Refusal;
use tables::MkTable;

// Lent room too small. The number is taken by `as`, as below: a constant calls no function.
const ROOM: u32 = Refusal::Room as u32;
// More bytes than a call takes.
const LONG: u32 = Refusal::Long as u32;
// The largest numbers that name an event and a reply. A larger one names nothing: a call tests for it first and tells 0, so that
// `numbers` has no case for it. `mk_go_on`, the short way, has no test: it takes such a number as a message gap, which it leaves.
const LAST_EVENT: u32 = 257;

const LAST_REPLY: u32 = 256;

// ---- the packet

// Judges the front of some bytes: 100 and the head of the packet there, or a refusal.
#[unsafe(no_mangle)]
pub extern "C" fn mk_check(bytes: &[u8], head: &mut [usize; 4]) -> u32
    ensures { PacketChecks bytes.now result head.new }
{
    let checked = packet::check(bytes);
    numbers::checked_values(checked, head);
    numbers::told(checked, PACKET)
}

// A packet at the front of the room: 101 and its size, or a refusal.
#[unsafe(no_mangle)]
pub extern "C" fn mk_build(
    room: &mut [u8],
    opcode: u8,
    source: u8,
    status: u8,
    data: &[u8],
    size: &mut usize,
) -> u32
    ensures { PacketBuilds room.old opcode source status «data».now result room.new size.new }
{
    let built = packet::build(room, opcode, source, status, data);
    *size = packet::size_of(built);
    numbers::told(built, WRITTEN)
}

// An ACK or a NAK at the front of the room: 101 and its size, or a refusal.
#[unsafe(no_mangle)]
pub extern "C" fn mk_answer(room: &mut [u8], source: u8, reply: u32, size: &mut usize) -> u32
    ensures { PacketAnswers room.old source reply result room.new size.new }
{
    if room.len() < packet::ANSWER_SIZE {
        *size = 0;
        return ROOM;
    }
    if reply > LAST_REPLY {
        *size = 0;
        return 0;
    }
    let built = packet::answer(room, source, numbers::reply(reply));
    *size = packet::size_of(built);
    numbers::told(built, WRITTEN)
}

// ---- the framer

// A framer with nothing begun.
#[unsafe(no_mangle)]
pub extern "C" fn mk_framer_idle(control: &mut [u8]) -> u32
    ensures { FramerIdle control.old result control.new }
{
    if control.len() < FRAMER_CONTROL_SIZE {
        return ROOM;
    }
    control::put_framer(framer::idle(), control);
    0
}

// One event: 100 and the head of the packet that stands at the front of the line buffer, a refusal, or 0.
#[unsafe(no_mangle)]
pub extern "C" fn mk_framer_hear(
    control: &mut [u8],
    line: &mut [u8],
    event: u32,
    head: &mut [usize; 4],
) -> u32
    ensures { FramerHears control.old line.old event result control.new line.new head.new }
{
    if control.len() < FRAMER_CONTROL_SIZE || line.len() < packet::PACKET_SIZE {
        *head = [0; 4];
        return ROOM;
    }
    if event > LAST_EVENT {
        *head = [0; 4];
        return 0;
    }
    let framed = framer::hear(control::framer(control), line, numbers::event(event));
    control::put_framer(framed.framer, control);
    numbers::found_values(framed.found, head);
    numbers::found(framed.found)
}

// ---- the short way of hub and reader

// One event of which there is nothing to tell, for most bytes of a line and the gaps behind packets: whether it was taken. It is lent
// the front of a hub's or a reader's control value and leaves the rest alone. It has no test for number 13: where it takes an event it
// does what `mk_hub_hear` and `mk_reader_hear` do with rooms of full size, and whoever lends rooms tests them first.
#[unsafe(no_mangle)]
pub extern "C" fn mk_go_on(
    control: &mut [u8; GOING_SIZE],
    line: &mut [u8; framer::LINE_SIZE],
    event: u32,
) -> bool
    ensures { GoesOn control.old line.old event result control.new line.new }
{
    let before = control::framer(control);
    // Any other byte is a flag that does not hold, as in `control`.
    let second = control[FRAMER_CONTROL_SIZE] == 1;
    match framer::go_on(before, second, line, numbers::event(event)) {
        framer::Going::On(count) => {
            control::put_number(count, control);
            true
        }
        framer::Going::Woken => {
            control::put_framer(framer::idle(), control);
            true
        }
        framer::Going::Left => false,
    }
}

// ---- the hub

// A hub just switched on.
#[unsafe(no_mangle)]
pub extern "C" fn mk_hub_on(control: &mut [u8]) -> u32
    ensures { HubOn control.old result control.new }
{
    if control.len() < HUB_CONTROL_SIZE {
        return ROOM;
    }
    control::put_hub(hub::switched_on(), control);
    0
}

// One event: 110 a piece was added, 111 a repeat, 112 a message stands in the message room, a refusal, or 0. The values are the
// answer's size, the message's code type and its size.
#[unsafe(no_mangle)]
pub extern "C" fn mk_hub_hear(
    control: &mut [u8],
    line: &mut [u8; framer::LINE_SIZE],
    gather: &mut [u8; packet::MESSAGE_SIZE],
    answer: &mut [u8],
    message: &mut [u8],
    event: u32,
    values: &mut [usize; 3],
) -> u32
    ensures { HubHears control.old line.old gather.old answer.old message.old event result control.new line.new gather.new answer.new message.new values.new }
{
    if control.len() < HUB_CONTROL_SIZE
        || answer.len() < hub::HUB_ANSWER_SIZE
        || message.len() < packet::MESSAGE_SIZE
    {
        *values = [0; 3];
        return ROOM;
    }
    if event > LAST_EVENT {
        *values = [0; 3];
        return 0;
    }
    let taken = hub::hear(
        control::hub(control),
        line,
        gather,
        answer,
        message,
        numbers::event(event),
    );
    control::put_hub(taken.hub, control);
    numbers::hub_values(taken.told, taken.answer, values);
    numbers::hub(taken.told)
}

// Many bytes with no gap among them, in one call: 112 a message stands in the message room, refusal 1 or 2 where one fell, 13, 15, or 0.
// The values are the size of all answers, the message's code type and its size, and how many bytes were taken. Where none was, the
// control bytes are left alone.
#[unsafe(no_mangle)]
pub extern "C" fn mk_hub_hear_block(
    control: &mut [u8],
    line: &mut [u8; framer::LINE_SIZE],
    gather: &mut [u8; packet::MESSAGE_SIZE],
    answer: &mut [u8],
    message: &mut [u8],
    bytes: &[u8],
    values: &mut [usize; 4],
) -> u32
    ensures { HubHearsBlock control.old line.old gather.old answer.old message.old bytes.now result control.new line.new gather.new answer.new message.new values.new }
{
    if control.len() < HUB_CONTROL_SIZE
        || answer.len() < hub::HUB_ANSWER_SIZE
        || message.len() < packet::MESSAGE_SIZE
    {
        *values = [0; 4];
        return ROOM;
    }
    if bytes.len() > hub::BLOCK_SIZE {
        *values = [0; 4];
        return LONG;
    }
    let brought = block::read(control, line, gather, answer, message, bytes);
    *values = [brought.answer, brought.code, brought.count, brought.taken];
    brought.told
}

// ---- the sender

// A sender with nothing out, after a message that failed or not.
#[unsafe(no_mangle)]
pub extern "C" fn mk_sender_idle(control: &mut [u8], failed: bool) -> u32
    ensures { SenderIdle control.old failed result control.new }
{
    if control.len() < SENDER_CONTROL_SIZE {
        return ROOM;
    }
    control::put_sender(sender::idle(failed), control);
    0
}

// Starts a message: 120, the size of the copy that stands in the room, and 1 where a message gap is due before it, else 0; or a
// refusal, which leaves the control bytes alone.
#[unsafe(no_mangle)]
pub extern "C" fn mk_sender_start(
    control: &mut [u8],
    buffer: &mut [u8; packet::MESSAGE_SIZE],
    room: &mut [u8],
    code: u8,
    message: &[u8],
    values: &mut [usize; 2],
) -> u32
    ensures { SenderStarts control.old buffer.old room.old code message.now result control.new buffer.new room.new values.new }
{
    if control.len() < SENDER_CONTROL_SIZE || room.len() < packet::PACKET_SIZE {
        *values = [0; 2];
        return ROOM;
    }
    let sending = sender::start(control::sender(control), buffer, room, code, message);
    let outcome = sending.outcome;
    numbers::start_values(outcome, values);
    if !numbers::refused(outcome) {
        control::put_sender(sending.sender, control);
    }
    numbers::outcome(outcome)
}

// One thing heard of the host: 120 and the size of a copy, 121 delivered or 122 failed and the message's marked copies, or 0.
#[unsafe(no_mangle)]
pub extern "C" fn mk_sender_hear(
    control: &mut [u8],
    buffer: &[u8; packet::MESSAGE_SIZE],
    room: &mut [u8],
    heard: u32,
    value: &mut usize,
) -> u32
    ensures { SenderHears control.old buffer.now room.old heard result control.new room.new value.new }
{
    if control.len() < SENDER_CONTROL_SIZE || room.len() < packet::PACKET_SIZE {
        *value = 0;
        return ROOM;
    }
    let sending = sender::hear(
        control::sender(control),
        buffer,
        room,
        numbers::heard(heard),
    );
    control::put_sender(sending.sender, control);
    *value = numbers::outcome_value(sending.outcome);
    numbers::outcome(sending.outcome)
}

// 123 where a message is out, else 0.
#[unsafe(no_mangle)]
pub extern "C" fn mk_sender_waits(control: &[u8]) -> u32
    ensures { SenderWaits control.now result }
{
    if control.len() < SENDER_CONTROL_SIZE {
        return ROOM;
    }
    if sender::waits(control::sender(control)) {
        WAITING
    } else {
        0
    }
}

// What a sender hears of a packet with these fields and data, as `mk_sender_hear` takes it.
#[unsafe(no_mangle)]
pub extern "C" fn mk_sender_heed(opcode: u8, source: u8, status: u8, data: &[u8]) -> u32
    ensures { SenderHeeds opcode source status «data».now result }
{
    numbers::heard_number(sender::heed(packet::HOST, opcode, source, status, data))
}

// ---- the reader's whole end

// A reader switched on with the house defaults.
#[unsafe(no_mangle)]
pub extern "C" fn mk_reader_on(control: &mut [u8]) -> u32
    ensures { ReaderOn control.old result control.new }
{
    if control.len() < READER_CONTROL_SIZE {
        return ROOM;
    }
    let table = table::defaults();
    control::put_reader(reader::switched_on(table), control);
    0
}

// Power-up: permanent values are copied to present ones; framer, sender and the last accepted packet are forgotten.
#[unsafe(no_mangle)]
pub extern "C" fn mk_reader_power_up(control: &mut [u8]) -> u32
    ensures { ReaderPowersUp control.old result control.new }
{
    if control.len() < READER_CONTROL_SIZE {
        return ROOM;
    }
    let next = reader::power_up(control::reader(control));
    control::put_reader(next, control);
    0
}

// Starts a message: 120, the size of the copy that stands in the copy room, and 1 where a message gap is due before it, else 0; or
// a refusal, which leaves the control bytes alone.
#[unsafe(no_mangle)]
pub extern "C" fn mk_reader_start(
    control: &mut [u8],
    message: &mut [u8; packet::MESSAGE_SIZE],
    copy: &mut [u8],
    code: u8,
    bytes: &[u8],
    values: &mut [usize; 2],
) -> u32
    ensures { ReaderStarts control.old message.old copy.old code bytes.now result control.new message.new copy.new values.new }
{
    if control.len() < READER_CONTROL_SIZE || copy.len() < packet::PACKET_SIZE {
        *values = [0; 2];
        return ROOM;
    }
    let started = reader::start(control::reader(control), message, copy, code, bytes);
    let outcome = started.outcome;
    numbers::start_values(outcome, values);
    if !numbers::refused(outcome) {
        control::put_reader(started.reader, control);
    }
    numbers::outcome(outcome)
}

// The sender's response time-out: 120 and the size of a copy, 122 failed and the message's marked copies, or 0.
#[unsafe(no_mangle)]
pub extern "C" fn mk_reader_time_out(
    control: &mut [u8],
    message: &[u8; packet::MESSAGE_SIZE],
    copy: &mut [u8],
    value: &mut usize,
) -> u32
    ensures { ReaderTimesOut control.old message.now copy.old result control.new copy.new value.new }
{
    if control.len() < READER_CONTROL_SIZE || copy.len() < packet::PACKET_SIZE {
        *value = 0;
        return ROOM;
    }
    let started = reader::time_out(control::reader(control), message, copy);
    control::put_reader(started.reader, control);
    *value = numbers::outcome_value(started.outcome);
    numbers::outcome(started.outcome)
}

// One event: 130 a command was acted on, 111 a repeat, what the sender brought (120, 121, 122), a refusal, or 0. The values are the
// answer's size, duration, pitch and number of beeps, the value of what the sender brought, and 1 where a permanent value changed.
#[unsafe(no_mangle)]
pub extern "C" fn mk_reader_hear(
    control: &mut [u8],
    line: &mut [u8; framer::LINE_SIZE],
    answers: &mut [u8; reader::READER_ANSWER_SIZE],
    message: &[u8; packet::MESSAGE_SIZE],
    answer: &mut [u8],
    copy: &mut [u8],
    event: u32,
    values: &mut [usize; 6],
) -> u32
    ensures { ReaderHears control.old line.old answers.old message.now answer.old copy.old event result control.new line.new answers.new answer.new copy.new values.new }
{
    if control.len() < READER_CONTROL_SIZE
        || answer.len() < reader::READER_ANSWER_SIZE
        || copy.len() < packet::PACKET_SIZE
    {
        *values = [0; 6];
        return ROOM;
    }
    if event > LAST_EVENT {
        *values = [0; 6];
        return 0;
    }
    let taken = reader::hear(
        control::reader(control),
        line,
        answers,
        message,
        answer,
        copy,
        numbers::event(event),
    );
    let changed = control::permanent_changed(control, taken.reader);
    control::put_reader(taken.reader, control);
    numbers::reader_values(taken.told, taken.answer, taken.outcome, changed, values);
    numbers::reader(taken.told, taken.outcome)
}

// The present value of a parameter; 0 where it is not supported.
#[unsafe(no_mangle)]
pub extern "C" fn mk_reader_value(control: &[u8], number: u8, value: &mut usize) -> u32
    ensures { ReaderValue control.now number result value.new }
{
    if control.len() < READER_CONTROL_SIZE {
        *value = 0;
        return ROOM;
    }
    let before = control::reader(control);
    *value = usize::from(table::value(before.device.table, number));
    0
}

// Whether a parameter is locked: 1 or 0; 0 where it is not supported.
#[unsafe(no_mangle)]
pub extern "C" fn mk_reader_locked(control: &[u8], number: u8, value: &mut usize) -> u32
    ensures { ReaderLocked control.now number result value.new }
{
    if control.len() < READER_CONTROL_SIZE {
        *value = 0;
        return ROOM;
    }
    let before = control::reader(control);
    *value = usize::from(table::locked(before.device.table, number));
    0
}

// Writes the saved set, permanent values and locks: 101 and how many bytes stand in the room, or a refusal.
#[unsafe(no_mangle)]
pub extern "C" fn mk_reader_save(control: &[u8], room: &mut [u8], size: &mut usize) -> u32
    ensures { ReaderSaves control.now room.old result room.new size.new }
{
    if control.len() < READER_CONTROL_SIZE {
        *size = 0;
        return ROOM;
    }
    let before = control::reader(control);
    let written = saved::save(before.device.table, room);
    *size = packet::size_of(written);
    numbers::told(written, WRITTEN)
}

// Reads a saved set: 0 where it was taken. 12 for any bytes that are no form, then 13, and every control byte stays.
#[unsafe(no_mangle)]
pub extern "C" fn mk_reader_load(control: &mut [u8], form: &[u8]) -> u32
    ensures { ReaderLoads control.old form.now result control.new }
{
    if control.len() < READER_CONTROL_SIZE {
        // A form that does not read is told before the room: 13 is what is left to tell where it reads.
        return numbers::told(saved::load(form), ROOM);
    }
    match reader::load(control::reader(control), form) {
        Ok(next) => {
            control::put_reader(next, control);
            0
        }
        Err(unread) => numbers::refusal(unread),
    }
}

// What is switched on: scanning, session, aim, LED, each 1 or 0.
#[unsafe(no_mangle)]
pub extern "C" fn mk_reader_switches(control: &[u8], values: &mut [usize; 4]) -> u32
    ensures { ReaderSwitches control.now result values.new }
{
    if control.len() < READER_CONTROL_SIZE {
        *values = [0; 4];
        return ROOM;
    }
    let before = control::reader(control);
    control::switches(before.device, values);
    0
}

// A reader's table, taken out: 0, or 13 with the struct left alone.
#[unsafe(no_mangle)]
pub extern "C" fn mk_reader_table(control: &[u8], table: &mut MkTable) -> u32
    ensures { TakesOut control.now table.old result table.new }
{
    if control.len() < READER_CONTROL_SIZE {
        return ROOM;
    }
    let before = control::reader(control);
    *table = tables::struct_of(before.device.table);
    0
}

// A table put into a reader: 0. 13, then 9 for a value that its parameter does not take, and every control byte stays. The last accepted
// packet is forgotten: its repeat, answered from memory, would claim a change that this table may have undone.
#[unsafe(no_mangle)]
pub extern "C" fn mk_reader_put_table(control: &mut [u8], table: &MkTable) -> u32
    ensures { PutsBack control.old table.now result control.new }
{
    if control.len() < READER_CONTROL_SIZE {
        return ROOM;
    }
    if !tables::all_allowed(*table) {
        return numbers::refusal(Refusal::Setting);
    }
    let next = reader::with_table(control::reader(control), tables::table_of(*table));
    control::put_reader(next, control);
    0
}

// ---- a parameter table that a board keeps

// Sets a list of pairs, number and value, where the table stands: 0, or 7 or 9 with not a byte of it changed.
#[unsafe(no_mangle)]
pub extern "C" fn mk_table_set(table: &mut MkTable, pairs: &[u8], permanent: bool) -> u32
    ensures { SetsTable table.old pairs.now permanent result table.new }
{
    match table::set(tables::table_of(*table), pairs, permanent) {
        Ok(next) => {
            *table = tables::with_values(*table, next);
            0
        }
        Err(why) => numbers::refusal(why),
    }
}

// Every parameter that is not locked to its house default, present and permanent.
#[unsafe(no_mangle)]
pub extern "C" fn mk_table_set_defaults(table: &mut MkTable)
    ensures { DefaultsTable table.old table.new }
{
    let next = table::set_defaults(tables::table_of(*table));
    *table = tables::with_values(*table, next);
}

// Permanent values become present ones.
#[unsafe(no_mangle)]
pub extern "C" fn mk_table_power_up(table: &mut MkTable)
    ensures { PowersUpTable table.old table.new }
{
    let next = table::power_up(tables::table_of(*table));
    *table = tables::with_values(*table, next);
}
