// What is tried with a vector: the check, building, damage, and the answers.
// A refusal that is due is its number in the rules' table, so that no name of the library can be wrong on both sides.
ghost use Rattle.std.specs.Prelude.{◌≤◌, ◌<◌, length};

use crate::tally::{Tally, count, hex};
use packet::{Head, Refusal, Reply};

// The fields of a packet that building is given.
#[derive(Clone, Copy)]
pub(crate) struct Fields {
    pub opcode: u8,
    pub source: u8,
    pub status: u8,
}

impl Fields {
    pub(crate) fn new(opcode: u8, source: u8, status: u8) -> Fields {
        Fields {
            opcode,
            source,
            status,
        }
    }
}

// A packet that the check finds with these fields and n bytes of data, and what is due where it is built again. Then it is damaged.
pub(crate) fn tried(
    rt: &impl Print,
    t: &mut Tally,
    bytes: &[u8],
    fields: Fields,
    n: usize,
    due: Result<&[u8], u8>,
) {
    checked(rt, t, bytes, fields, n);
    built(rt, t, bytes, fields, due);
    damaged(rt, t, bytes);
}

// The check gives this refusal at the front of these bytes, or finds a packet.
pub(crate) fn front(rt: &impl Print, t: &mut Tally, bytes: &[u8], due: Option<u8>) {
    let found = refusal_of(packet::check(bytes));
    let _ = print!(rt; "FRONT");
    hex(rt, bytes);
    say_refusal(rt, found);
    t.compare(found == due);
    t.end(rt);
}

// The refusal's number; none is a packet.
pub(crate) fn refusal_of<T: Copy>(judged: Result<T, Refusal>) -> Option<u8> {
    judged.err().map(packet::number)
}

fn say_refusal(rt: &impl Print, refusal: Option<u8>) {
    let _ = match refusal {
        None => print!(rt; " PACKET"),
        Some(number) => print!(rt; " REFUSED {number}"),
    };
}

// The check finds a packet with these fields and n bytes of data.
pub(crate) fn checked(rt: &impl Print, t: &mut Tally, bytes: &[u8], fields: Fields, n: usize) {
    let _ = print!(rt; "CHECK");
    hex(rt, bytes);
    match packet::check(bytes) {
        Ok(head) => {
            headed(rt, t, head, fields);
            parted(rt, t, head, bytes, n);
        }
        Err(refusal) => {
            say_refusal(rt, Some(packet::number(refusal)));
            t.compare(false);
        }
    }
    t.end(rt);
}

fn headed(rt: &impl Print, t: &mut Tally, head: Head, due: Fields) {
    let Head {
        opcode,
        source,
        status,
        ..
    } = head;
    say_fields(rt, Fields::new(opcode, source, status));
    t.compare(opcode == due.opcode);
    t.compare(source == due.source);
    t.compare(status == due.status);
}

fn parted(rt: &impl Print, t: &mut Tally, head: Head, bytes: &[u8], n: usize) {
    let part = packet::data_part(bytes);
    say_size(rt, part.len());
    t.compare(part.len() == n);
    t.compare(head.length == part.len() + 4);
    t.compare(part == between(bytes));
}

// What stands between the header and the checksum of a whole packet.
fn between(bytes: &[u8]) -> &[u8] {
    match bytes {
        [_, _, _, _, part @ .., _, _] => part,
        _ => &[],
    }
}

pub(crate) fn say_fields(rt: &impl Print, fields: Fields) {
    let _ = print!(rt;
        " FIELDS {:02X} {:02X} {:02X}",
        fields.opcode, fields.source, fields.status
    );
}

pub(crate) fn say_size(rt: &impl Print, n: usize) {
    let _ = print!(rt; " DATA {n}");
}

// Longer than any packet and any room that is lent, so that the bytes behind them can be looked at.
pub(crate) type Buffer = [u8; 300];

// A buffer that nothing has written: 255 and downwards, so that a byte that was only moved is seen too. What is left of a division by 256 is
// a byte.
pub(crate) fn unwritten() -> Buffer {
    std::array::from_fn(|i| 255 - (i % 256) as u8)
}

// Whether these bytes stand at the front of the buffer, and nothing behind them was written. `words::copy` copies what fits, so that nothing is
// asked of the lengths.
fn stands(buffer: &Buffer, written: &[u8]) -> bool {
    let mut due = unwritten();
    words::copy(written, &mut due);
    *buffer == due
}

// The first n bytes, or all where there are fewer.
pub(crate) fn at_most(s: &[u8], n: usize) -> &[u8]
    ensures { length result.now ≤ length s.now }
{
    &s[..n.min(s.len())]
}

// Building from the fields and the data of `bytes` into a room of 257: these bytes, or this refusal.
pub(crate) fn built(
    rt: &impl Print,
    t: &mut Tally,
    bytes: &[u8],
    fields: Fields,
    due: Result<&[u8], u8>,
) {
    let mut buffer = unwritten();
    let done = build_in(&mut buffer, 257, fields, packet::data_part(bytes));
    let _ = print!(rt; "BUILD");
    judged(rt, t, done, &buffer, due);
}

// The front of a buffer, so many bytes or all of them.
fn room(buffer: &mut Buffer, size: usize) -> &mut [u8] {
    let n = size.min(buffer.len());
    &mut buffer[..n]
}

// Building into a room that is the front of a buffer.
pub(crate) fn build_in(
    buffer: &mut Buffer,
    size: usize,
    fields: Fields,
    part: &[u8],
) -> Result<usize, Refusal> {
    packet::build(
        room(buffer, size),
        fields.opcode,
        fields.source,
        fields.status,
        part,
    )
}

// What building did: its refusal, its size, and every byte of the buffer. Where it refuses, nothing is written.
pub(crate) fn judged(
    rt: &impl Print,
    t: &mut Tally,
    done: Result<usize, Refusal>,
    buffer: &Buffer,
    due: Result<&[u8], u8>,
) {
    let refusal = refusal_of(done);
    let size = packet::size_of(done);
    let written = due.unwrap_or(&[]);
    say_refusal(rt, refusal);
    hex(rt, at_most(buffer, size));
    t.compare(refusal == due.err());
    t.compare(size == written.len());
    t.compare(stands(buffer, written));
    t.end(rt);
}

// An answer into a room of 7 gives these bytes; a room of 6 is too small.
pub(crate) fn answered(rt: &impl Print, t: &mut Tally, bytes: &[u8], source: u8, reply: Reply) {
    answer(rt, t, 7, source, reply, Ok(bytes));
    answer(rt, t, 6, source, reply, Err(13));
}

// An answer into a room of this size: these bytes, or this refusal.
pub(crate) fn answer(
    rt: &impl Print,
    t: &mut Tally,
    size: usize,
    source: u8,
    reply: Reply,
    due: Result<&[u8], u8>,
) {
    let mut buffer = unwritten();
    let done = packet::answer(room(&mut buffer, size), source, reply);
    let _ = print!(rt; "ANSWER {size}");
    judged(rt, t, done, &buffer, due);
}

// A packet cut short, with more behind it, and with one byte changed.
fn damaged(rt: &impl Print, t: &mut Tally, bytes: &[u8]) {
    let mut buffer = unwritten();
    words::copy(bytes, &mut buffer);
    cut(rt, t, bytes);
    longer(rt, t, bytes, &buffer);
    changed(rt, t, &mut buffer, bytes.len());
}

// How often the check found a packet, and refusals 1, 2 and 3.
#[derive(Clone, Copy, Default)]
struct Found {
    packets: usize,
    ones: usize,
    twos: usize,
    threes: usize,
}

impl Found {
    fn see(&mut self, t: &mut Tally, s: &[u8], due: Option<u8>) {
        let found = refusal_of(packet::check(s));
        t.compare(found == due);
        count(&mut self.packets, found.is_none());
        count(&mut self.ones, found == Some(1));
        count(&mut self.twos, found == Some(2));
        count(&mut self.threes, found == Some(3));
    }

    fn tell(self, rt: &impl Print, t: &mut Tally) {
        let _ = print!(rt;
            " {} {} {} {}",
            self.packets, self.ones, self.twos, self.threes
        );
        t.end(rt);
    }
}

// Cut at each length, from no bytes on: refusal 3.
pub(crate) fn cut(rt: &impl Print, t: &mut Tally, bytes: &[u8]) {
    let mut found = Found::default();
    for n in 0..bytes.len() {
        found.see(t, &bytes[..n], Some(3));
    }
    let _ = print!(rt; "CUT");
    found.tell(rt, t);
}

// One byte more than the packet, and many more: later bytes aren't read.
fn longer(rt: &impl Print, t: &mut Tally, bytes: &[u8], buffer: &Buffer) {
    let mut found = Found::default();
    found.see(t, at_most(buffer, bytes.len() + 1), None);
    found.see(t, buffer, None);
    let _ = print!(rt; "LONGER");
    found.tell(rt, t);
}

// What is added to a byte, as bytes add: steps up and down, so that a length comes out too long, shorter, and below 4.
const DIFFERENCES: [u8; 11] = [1, 2, 4, 16, 64, 128, 192, 240, 252, 254, 255];

// Each of the n bytes of a packet changed by each difference.
fn changed(rt: &impl Print, t: &mut Tally, buffer: &mut Buffer, n: usize) {
    let mut found = Found::default();
    for at in 0..n.min(buffer.len()) {
        changed_at(t, &mut found, buffer, n, at);
    }
    let _ = print!(rt; "CHANGED");
    found.tell(rt, t);
}

fn changed_at(t: &mut Tally, found: &mut Found, buffer: &mut Buffer, n: usize, at: usize)
    requires { at < 300 }
{
    let old = buffer[at];
    for difference in DIFFERENCES {
        let new = old.wrapping_add(difference);
        buffer[at] = new;
        found.see(t, at_most(buffer, n), Some(spoilt(new, at, n)));
    }
    buffer[at] = old;
}

// What is due for a packet of n bytes with this new byte. A first byte says another length; any other breaks the sum.
fn spoilt(new: u8, at: usize, n: usize) -> u8 {
    if at == 0 && new < 4 {
        1
    } else if at == 0 && usize::from(new) + 2 > n {
        3
    } else {
        2
    }
}
