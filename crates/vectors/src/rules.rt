// The rules at their edges (§2 to §4, §6, §7): names and numbers, short lengths, what building refuses and in which order, the
// largest packet, and every value of a field.
use crate::tally::{Tally, count};
use crate::trials::{
    Fields, answer, at_most, build_in, built, checked, cut, front, judged, refusal_of, say_fields,
    say_size, unwritten,
};
use packet::{Refusal, Reply};

pub(crate) fn rules(rt: &impl Print, t: &mut Tally) {
    lists(rt, t);
    lengths(rt, t);
    for row in ORDER {
        refused(rt, t, row);
    }
    rooms(rt, t);
    largest(rt, t);
    fields(rt, t);
}

// The library's names for sources and opcodes, and their numbers as §2, §7, §8 and §11 print them.
const NAMES: [(u8, u8); 17] = [
    (packet::HOST, 0x04),
    (packet::READER, 0x00),
    (packet::CMD_ACK, 0xD0),
    (packet::CMD_NAK, 0xD1),
    (packet::PARAM_SEND, 0xC6),
    (packet::PARAM_REQUEST, 0xC7),
    (packet::BEEP, 0xE6),
    (packet::LED_ON, 0xE7),
    (packet::LED_OFF, 0xE8),
    (packet::PARAM_DEFAULTS, 0xC8),
    (packet::START_SESSION, 0xE4),
    (packet::STOP_SESSION, 0xE5),
    (packet::SCAN_ENABLE, 0xE9),
    (packet::SCAN_DISABLE, 0xEA),
    (packet::AIM_ON, 0xC5),
    (packet::AIM_OFF, 0xC4),
    (packet::DECODE_DATA, 0xF3),
];

// The rows of the table of 'Refusal numbers', in its order: the refusal, its number, and the cause of the NAK, 0 for none.
const REFUSALS: [(Refusal, u8, u8); 14] = [
    (Refusal::Length, 1, 1),
    (Refusal::Checksum, 2, 1),
    (Refusal::Cut, 3, 1),
    (Refusal::Source, 4, 2),
    (Refusal::Status, 5, 2),
    (Refusal::Opcode, 6, 2),
    (Refusal::Data, 7, 2),
    (Refusal::Beep, 8, 6),
    (Refusal::Setting, 9, 6),
    (Refusal::Barred, 10, 6),
    (Refusal::Start, 11, 0),
    (Refusal::Form, 12, 0),
    (Refusal::Room, 13, 0),
    (Refusal::Long, 15, 0),
];

fn lists(rt: &impl Print, t: &mut Tally) {
    listed(rt, t, "NAMES", &NAMES);
    let numbers = REFUSALS.map(|(refusal, number, _)| (packet::number(refusal), number));
    listed(rt, t, "NUMBERS", &numbers);
    let causes = REFUSALS.map(|(refusal, _, cause)| (packet::cause(refusal), cause));
    listed(rt, t, "CAUSES", &causes);
}

// What is found in each row, beside what is due.
fn listed(rt: &impl Print, t: &mut Tally, word: &str, rows: &[(u8, u8)]) {
    let _ = print!(rt; "{word}");
    for (found, _) in rows {
        let _ = print!(rt; " {found:02X}");
    }
    t.compare(rows.iter().all(|(found, due)| found == due));
    t.end(rt);
}

// A first byte below 4 is refused at once, also where the sum of that many bytes is right; 4 is the least length. Calls, here and below, one
// vector to a line.
fn lengths(rt: &impl Print, t: &mut Tally) {
    front(rt, t, b"", Some(3));
    front(rt, t, b"\x00", Some(1));
    front(rt, t, b"\x01", Some(1));
    front(rt, t, b"\x02", Some(1));
    front(rt, t, b"\x03", Some(1));
    front(rt, t, b"\x00\x00\x00", Some(1));
    front(rt, t, b"\x01\xFF\xFF", Some(1));
    front(rt, t, b"\x02\xD0\xFF\x2E", Some(1));
    front(rt, t, b"\x03\xD0\x04\xFF\x29", Some(1));
    front(rt, t, b"\x03\xD0\x04\x00\xFF\x29", Some(1));
    front(rt, t, b"\x04", Some(3));
    front(rt, t, b"\x04\xD0\x04\x00\xFF", Some(3));
    front(rt, t, b"\x04\xD0\x04\x00\xFF\x28", None);
    front(rt, t, b"\x04\xD0\x04\x00\xFF\x29", Some(2));
    front(rt, t, b"\x04\xD0\x04\x00\xFE\x28", Some(2));
    front(rt, t, b"\x04\xD0\x04\x00\x28\xFF", Some(2));
}

// Building n bytes FFh into a room of this size, and the refusal that is due.
#[derive(Clone, Copy)]
struct Row {
    size: usize,
    fields: Fields,
    n: usize,
    due: u8,
}

// One to a line: the room's size, opcode, source, status, n, and the refusal.
macro_rules! row {
    ($size:literal, $opcode:literal, $source:literal, $status:literal, $n:literal, $due:literal) => {
        Row {
            size: $size,
            fields: Fields {
                opcode: $opcode,
                source: $source,
                status: $status,
            },
            n: $n,
            due: $due,
        }
    };
}

// Building judges room, then source, then status, then data: the first row of each number is wrong in every later way too.
const ORDER: [Row; 15] = [
    row!(256, 0xC6, 1, 0xFF, 252, 13),
    row!(256, 0xC6, 1, 0x00, 0, 13),
    row!(256, 0xC6, 4, 0x00, 0, 13),
    row!(0, 0xC6, 4, 0x00, 0, 13),
    row!(257, 0xC6, 1, 0xFF, 252, 4),
    row!(257, 0xC6, 1, 0x00, 0, 4),
    row!(257, 0xC6, 4, 0xFF, 252, 5),
    row!(257, 0xC6, 4, 0x02, 0, 5),
    row!(257, 0xF3, 0, 0x04, 0, 5),
    row!(257, 0xF3, 0, 0x10, 0, 5),
    row!(257, 0xF3, 0, 0x20, 0, 5),
    row!(257, 0xF3, 0, 0x40, 0, 5),
    row!(257, 0xF3, 0, 0x80, 0, 5),
    row!(257, 0xC6, 4, 0x00, 252, 7),
    row!(300, 0xF3, 0, 0x02, 252, 7),
];

fn refused(rt: &impl Print, t: &mut Tally, row: Row) {
    let full = [0xFF; 255];
    let part = at_most(&full, row.n);
    let mut buffer = unwritten();
    let done = build_in(&mut buffer, row.size, row.fields, part);
    let _ = print!(rt; "ROOM {}", row.size);
    say_fields(rt, row.fields);
    say_size(rt, part.len());
    judged(rt, t, done, &buffer, Err(row.due));
}

// A room may be larger than is asked for. An answer's source is judged as building judges it, after the room.
fn rooms(rt: &impl Print, t: &mut Tally) {
    roomed(rt, t, 257);
    roomed(rt, t, 258);
    roomed(rt, t, 300);
    answer(rt, t, 0, 4, Reply::Ack, Err(13));
    answer(rt, t, 8, 4, Reply::Ack, Ok(b"\x04\xD0\x04\x00\xFF\x28"));
    let nak = b"\x05\xD1\x00\x00\x06\xFF\x24";
    answer(rt, t, 300, 0, Reply::Nak(6), Ok(nak));
    answer(rt, t, 6, 1, Reply::Ack, Err(13));
    answer(rt, t, 7, 1, Reply::Ack, Err(4));
    answer(rt, t, 7, 1, Reply::Nak(1), Err(4));
}

// Building case 1 into a room of this size.
fn roomed(rt: &impl Print, t: &mut Tally, size: usize) {
    let mut buffer = unwritten();
    let done = build_in(&mut buffer, size, Fields::new(0xD0, 4, 0), b"");
    let _ = print!(rt; "ROOM {size}");
    judged(rt, t, done, &buffer, Ok(b"\x04\xD0\x04\x00\xFF\x28"));
}

// 255 bytes and their checksum, all data FFh: the largest sum, 65,025, and the largest packet that building gives.
fn largest(rt: &impl Print, t: &mut Tally) {
    let mut bytes = [0xFF; 257];
    bytes[255] = 0x01;
    checked(rt, t, &bytes, Fields::new(0xFF, 0xFF, 0xFF), 251);
    bytes[2] = 0x04;
    bytes[3] = 0x09;
    bytes[255] = 0x03;
    bytes[256] = 0xF0;
    let allowed = Fields::new(0xFF, 4, 9);
    checked(rt, t, &bytes, allowed, 251);
    built(rt, t, &bytes, allowed, Ok(&bytes));
    cut(rt, t, &bytes);
}

// Every value of one field, the others right, and how many of them building allows.
fn fields(rt: &impl Print, t: &mut Tally) {
    statuses(rt, t, 0xF3, 8);
    statuses(rt, t, 0xF2, 4);
    statuses(rt, t, 0xC6, 4);
    let _ = print!(rt; "SOURCE");
    every(rt, t, 2, |t, source| {
        let fields = Fields::new(0xC6, source, 0);
        allowed(t, fields, 0, source_due(source))
    });
    let _ = print!(rt; "OPCODE");
    every(rt, t, 256, |t, opcode| {
        let fields = Fields::new(opcode, 4, 0);
        allowed(t, fields, 0, None)
    });
    let _ = print!(rt; "SIZE");
    every(rt, t, 252, |t, n| {
        let fields = Fields::new(0xF3, 0, 0);
        allowed(t, fields, n, size_due(n))
    });
}

// The status with one opcode: `packet::status_allowed` says the same as building.
fn statuses(rt: &impl Print, t: &mut Tally, opcode: u8, due: usize) {
    let _ = print!(rt; "STATUS {opcode:02X}");
    every(rt, t, due, |t, status| {
        let fields = Fields::new(opcode, 0, status);
        let due = status_due(opcode, status);
        t.compare(packet::status_allowed(opcode, status) == due.is_none());
        allowed(t, fields, 0, due)
    });
}

// Of how many values this is so, and of how many it should be; the line's first word is printed already.
fn every<F: Fn(&mut Tally, u8) -> bool>(rt: &impl Print, t: &mut Tally, due: usize, is_allowed: F)
    requires { F.IsAlwaysCallable is_allowed }
{
    let mut found = 0;
    for value in 0..=255 {
        count(&mut found, is_allowed(t, value));
    }
    let _ = print!(rt; " ALLOWED {found}");
    t.compare(found == due);
    t.end(rt);
}

// Bits 0 and 3 are free, bit 1 is for DECODE_DATA.
fn status_due(opcode: u8, status: u8) -> Option<u8> {
    match status {
        0 | 1 | 8 | 9 => None,
        2 | 3 | 10 | 11 if opcode == 0xF3 => None,
        _ => Some(5),
    }
}

fn source_due(source: u8) -> Option<u8> {
    match source {
        0 | 4 => None,
        _ => Some(4),
    }
}

fn size_due(n: u8) -> Option<u8> {
    match n {
        0..252 => None,
        _ => Some(7),
    }
}

// Whether building allows the fields with n bytes FFh: the refusal that is due, and a packet where there is none.
fn allowed(t: &mut Tally, fields: Fields, n: u8, due: Option<u8>) -> bool {
    let full = [0xFF; 255];
    let part = at_most(&full, usize::from(n));
    let mut room = [0; packet::PACKET_SIZE];
    let done = packet::build(&mut room, fields.opcode, fields.source, fields.status, part);
    t.compare(refusal_of(done) == due);
    if let Ok(size) = done {
        t.compare(packet::check(at_most(&room, size)).is_ok());
    }
    done.is_ok()
}
