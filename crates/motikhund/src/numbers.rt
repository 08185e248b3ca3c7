// Events and answers as numbers: specs/Numbers.antt has a line for each case of each enum.
// The numbers are the C interface's, and may not change.
ghost use Rattle.motikhund.specs.Numbers.{EventOf, HeardOf, HeardNumber, ReplyOf, RefusalNumber, ResultNumber, HeadValues, CheckedValues, FoundNumber, FoundValues, HubNumber, HubValues, OutcomeNumber, OutcomeValue, OutcomeGap, StartValues, OutcomeRefused, ReaderNumber, ReaderRow, ReaderValues};

use framer::{Event, Found};
use packet::{Head, Refusal, Reply};
use sender::{Heard, Outcome};

// A packet stands there.
pub(crate) const PACKET: u32 = 100;
// Bytes were written.
pub(crate) const WRITTEN: u32 = 101;
// A piece of a message was added.
const ADDED: u32 = 110;
// A packet was a repeat of the last accepted one.
const REPEATED: u32 = 111;
// A message is complete.
pub(crate) const MESSAGE: u32 = 112;
// A copy stands in the room.
const COPY: u32 = 120;
// A message was delivered.
const DELIVERED: u32 = 121;
// A message failed.
const FAILED: u32 = 122;
// A message is out.
pub(crate) const WAITING: u32 = 123;
// A command was acted on.
const ACTED: u32 = 130;

// ---- what goes in

// A byte is taken by `as` here and below: the range says that it is one, and `try_from` would have a case that cannot be.

pub(crate) fn event(n: u32) -> Event
    ensures { EventOf n result }
{
    match n {
        0..=255 => Event::Byte(n as u8),
        256 => Event::CharacterGap,
        _ => Event::MessageGap,
    }
}

pub(crate) fn heard(n: u32) -> Heard
    ensures { HeardOf n result }
{
    match n {
        0..=255 => Heard::Nak(n as u8),
        256 => Heard::Ack,
        257 => Heard::TimeOut,
        _ => Heard::Nothing,
    }
}

pub(crate) fn reply(n: u32) -> Reply
    ensures { ReplyOf n result }
{
    match n {
        0..=255 => Reply::Nak(n as u8),
        _ => Reply::Ack,
    }
}

// ---- what comes out

pub(crate) fn refusal(why: Refusal) -> u32
    ensures { RefusalNumber why result }
{
    u32::from(packet::number(why))
}

// What a call told that may be refused: the number of what it did, or the refusal's.
pub(crate) fn told<T: Copy>(made: Result<T, Refusal>, done: u32) -> u32
    ensures { ResultNumber made done result }
{
    match made {
        Ok(_) => done,
        Err(why) => refusal(why),
    }
}

fn head_values(head: Head, values: &mut [usize; 4])
    ensures { HeadValues head values.new }
{
    *values = [
        head.length,
        usize::from(head.opcode),
        usize::from(head.source),
        usize::from(head.status),
    ];
}

pub(crate) fn checked_values(checked: Result<Head, Refusal>, values: &mut [usize; 4])
    ensures { CheckedValues checked values.new }
{
    match checked {
        Ok(head) => head_values(head, values),
        Err(_) => *values = [0; 4],
    }
}

pub(crate) fn found(found: Found) -> u32
    ensures { FoundNumber found result }
{
    match found {
        Found::Nothing => 0,
        Found::Packet(_) => PACKET,
        Found::Refused(why) => refusal(why),
    }
}

pub(crate) fn found_values(found: Found, values: &mut [usize; 4])
    ensures { FoundValues found values.new }
{
    match found {
        Found::Packet(head) => head_values(head, values),
        Found::Nothing | Found::Refused(_) => *values = [0; 4],
    }
}

pub(crate) fn hub(told: hub::Told) -> u32
    ensures { HubNumber told result }
{
    match told {
        hub::Told::Nothing => 0,
        hub::Told::Added => ADDED,
        hub::Told::Repeated => REPEATED,
        hub::Told::Message { .. } => MESSAGE,
        hub::Told::Refused(why) => refusal(why),
    }
}

pub(crate) fn hub_values(told: hub::Told, answer: usize, values: &mut [usize; 3])
    ensures { HubValues told answer values.new }
{
    *values = match told {
        hub::Told::Message { code, count } => [answer, usize::from(code), count],
        hub::Told::Nothing | hub::Told::Added | hub::Told::Repeated | hub::Told::Refused(_) => {
            [answer, 0, 0]
        }
    };
}

pub(crate) fn outcome(outcome: Outcome) -> u32
    ensures { OutcomeNumber outcome result }
{
    match outcome {
        Outcome::Nothing => 0,
        Outcome::Copy { .. } => COPY,
        Outcome::Delivered(_) => DELIVERED,
        Outcome::Failed(_) => FAILED,
        Outcome::Refused(why) => refusal(why),
    }
}

pub(crate) fn outcome_value(outcome: Outcome) -> usize
    ensures { OutcomeValue outcome result }
{
    match outcome {
        Outcome::Copy { size, .. } => size,
        Outcome::Delivered(copies) | Outcome::Failed(copies) => copies,
        Outcome::Nothing | Outcome::Refused(_) => 0,
    }
}

fn outcome_gap(outcome: Outcome) -> bool
    ensures { OutcomeGap outcome result }
{
    matches!(outcome, Outcome::Copy { gap: true, .. })
}

pub(crate) fn start_values(outcome: Outcome, values: &mut [usize; 2])
    ensures { StartValues outcome values.new }
{
    *values = [outcome_value(outcome), usize::from(outcome_gap(outcome))];
}

pub(crate) fn refused(outcome: Outcome) -> bool
    ensures { OutcomeRefused outcome result }
{
    matches!(outcome, Outcome::Refused(_))
}

pub(crate) fn heard_number(heard: Heard) -> u32
    ensures { HeardNumber heard result }
{
    match heard {
        Heard::Ack => 256,
        Heard::Nak(cause) => u32::from(cause),
        Heard::TimeOut => 257,
        Heard::Nothing => 258,
    }
}

pub(crate) fn reader(told: reader::Told, sent: Outcome) -> u32
    ensures { ReaderNumber told sent result }
{
    match told {
        reader::Told::Nothing => outcome(sent),
        reader::Told::Refused(why) => refusal(why),
        reader::Told::Acted(_) => ACTED,
        reader::Told::Repeated => REPEATED,
    }
}

// Duration, pitch and number of the beeps that are reported; 0 where there are none.
fn reader_row(told: reader::Told) -> [usize; 3]
    ensures { ReaderRow told result }
{
    match told {
        reader::Told::Acted(Some(beep)) => [
            usize::from(beep.duration),
            usize::from(beep.pitch),
            usize::from(beep.count),
        ],
        reader::Told::Nothing
        | reader::Told::Refused(_)
        | reader::Told::Acted(None)
        | reader::Told::Repeated => [0; 3],
    }
}

pub(crate) fn reader_values(
    told: reader::Told,
    answer: usize,
    sent: Outcome,
    changed: bool,
    values: &mut [usize; 6],
)
    ensures { ReaderValues told answer sent changed values.new }
{
    let [duration, pitch, count] = reader_row(told);
    *values = [
        answer,
        duration,
        pitch,
        count,
        outcome_value(sent),
        usize::from(changed),
    ];
}
