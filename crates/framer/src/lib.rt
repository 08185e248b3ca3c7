// The framer (§5): bytes and gaps of a line, one event at a time, into packets and refusals.
#![tactic(auto)]

ghost use Rattle.std.specs.Prelude.{◌≤◌, ◌<◌, false, ◌≡◌, length};
ghost use Rattle.packet.specs.Sizes.{packet_size};
ghost use Rattle.framer.specs.Halves.{IdleHalves, Listens, Received, Kept, AcceptsLast, Place, Last, GoesOn, Inside};
ghost use Rattle.framer.specs.Silence.{TakesIn, LengthOf, InsideOf};
ghost use Rattle.framer.specs.Promises.{Idle, Deaf, Ended, Begun, Below, Gap, Unfinished, Frames};

use packet::{CHECKSUM_SIZE, HEAD_SIZE, Head, PACKET_SIZE, Refusal};

// Room for two packets: one half receives, the last accepted packet stays in the other.
pub const LINE_SIZE: usize = 2 * PACKET_SIZE;
// The longest packet without its checksum.
const BODY_SIZE: usize = PACKET_SIZE - CHECKSUM_SIZE;

// What happens on a line. A message gap is also a character gap.
#[derive(Clone, Copy)]
pub enum Event {
    Byte(u8),
    CharacterGap,
    MessageGap,
}

// Whether all bytes are ignored until the next gap, and how many bytes of the packet begun stand in the line buffer.
// Two fields are kept apart: an exported control value keeps each of its bytes, also one that no run leaves.
#[derive(Clone, Copy)]
pub struct Framer {
    pub deaf: bool,
    pub count: usize,
}

// What an event ended: nothing, a packet that stands at the front of the line buffer, or a refusal.
// Three outcomes: an Option of a Result would put nothing, a packet and a refusal on two levels.
#[derive(Clone, Copy)]
pub enum Found {
    Nothing,
    Packet(Head),
    Refused(Refusal),
}

// A struct of its own, as `Listened` is, so that names say which of the two is read.
#[derive(Clone, Copy)]
pub struct Framed {
    pub framer: Framer,
    pub found: Found,
}

// A framer with nothing begun.
pub fn idle() -> Framer
    ensures { Idle result }
{
    Framer {
        count: 0,
        deaf: false,
    }
}

// A framer that ignores all bytes until the next gap.
fn deaf() -> Framer
    ensures { Deaf result }
{
    Framer {
        count: 0,
        deaf: true,
    }
}

// One event. The line buffer has room for a packet; with less the event is not taken.
pub fn hear(framer: Framer, line: &mut [u8], event: Event) -> Framed
    ensures { Frames framer line.old event result line.new }
{
    if line.len() < PACKET_SIZE {
        return Framed {
            framer,
            found: Found::Refused(Refusal::Room),
        };
    }
    match event {
        Event::Byte(b) => byte(framer, line, b),
        Event::CharacterGap | Event::MessageGap => gap(framer),
    }
}

// The bytes begun.
#[tactic(auto, unfolding(crate::specs::Promises::begun_of))]
fn begun(framer: Framer) -> usize
    ensures { Begun framer result }
{
    below(framer.count, PACKET_SIZE)
}

// A length in a control value: one that cannot be is 0.
fn below(length: usize, limit: usize) -> usize
    ensures { Below length limit result }
{
    if length < limit { length } else { 0 }
}

// A gap ends the packet begun.
fn gap(framer: Framer) -> Framed
    ensures { Gap framer result }
{
    if framer.deaf || begun(framer) == 0 {
        return ended(Found::Nothing);
    }
    ended(Found::Refused(Refusal::Cut))
}

// Nothing is begun any more.
fn ended(found: Found) -> Framed
    ensures { Ended found result }
{
    Framed {
        framer: idle(),
        found,
    }
}

// A byte is judged with those before it.
fn byte(framer: Framer, line: &mut [u8], b: u8) -> Framed
    requires { packet_size ≤ length line.old }
    ensures { Frames framer line.old (Event.Byte b) result line.new }
{
    if framer.deaf {
        return Framed {
            framer: deaf(),
            found: Found::Nothing,
        };
    }
    let at = begun(framer);
    line[at] = b;
    let count = at + 1;
    match packet::check(&line[..count]) {
        Ok(head) => ended(Found::Packet(head)),
        Err(refusal) => unfinished(refusal, count),
    }
}

// Too few bytes: the framer goes on. Any other refusal makes it deaf.
fn unfinished(refusal: Refusal, count: usize) -> Framed
    ensures { Unfinished refusal count result }
{
    match refusal {
        Refusal::Cut => Framed {
            framer: Framer { count, deaf: false },
            found: Found::Nothing,
        },
        _ => Framed {
            framer: deaf(),
            found: Found::Refused(refusal),
        },
    }
}

// A framer over two halves of a line buffer: which half receives, and how long the last accepted packet in the other is.
// The last one's length is 0 for none: an exported control value keeps each of its bytes.
#[derive(Clone, Copy)]
pub struct Halves {
    pub framer: Framer,
    pub second: bool,
    pub last: usize,
}

#[derive(Clone, Copy)]
pub struct Listened {
    pub halves: Halves,
    pub found: Found,
}

// Nothing begun, and no packet accepted.
pub fn idle_halves() -> Halves
    ensures { IdleHalves result }
{
    Halves {
        framer: idle(),
        second: false,
        last: 0,
    }
}

// One event, in the half that receives.
pub fn listen(halves: Halves, buffer: &mut [u8; LINE_SIZE], event: Event) -> Listened
    ensures { Listens halves buffer.old event result buffer.new }
{
    let from = place(halves.second);
    // Lent straight from the array, the prover would know nothing of the bytes that come back.
    let whole = &mut buffer[..];
    let Framed { framer, found } = hear(halves.framer, &mut whole[from..from + PACKET_SIZE], event);
    Listened {
        halves: Halves { framer, ..halves },
        found,
    }
}

// What the short way did with an event.
// Three outcomes: an Option of a count could not tell a deaf framer that hears again.
#[derive(Clone, Copy)]
pub enum Going {
    // so many bytes are begun now; deaf or not, the framer is as it was
    On(usize),
    // a deaf framer hears again, with nothing begun
    Woken,
    // it was left: the framer may have something to tell
    Left,
}

// The short way of `listen`, for a byte or a character gap of which the framer tells nothing: most events of a line. Of the halves it
// needs the framer, and which one receives. It has no test for number 13, so it stands for an event with rooms of full size: whoever
// lends rooms tests them first.
pub fn go_on(framer: Framer, second: bool, buffer: &mut [u8; LINE_SIZE], event: Event) -> Going
    ensures { GoesOn framer second buffer.old event result buffer.new }
{
    match event {
        Event::Byte(b) => carry(framer, second, buffer, b),
        Event::CharacterGap => pause(framer, second, buffer),
        Event::MessageGap => Going::Left,
    }
}

fn carry(framer: Framer, second: bool, buffer: &mut [u8; LINE_SIZE], b: u8) -> Going
    ensures { GoesOn framer second buffer.old (Event.Byte b) result buffer.new }
{
    if framer.deaf {
        return Going::On(0);
    }
    let from = place(second);
    // Lent as a slice for the reason that `listen` gives.
    let whole = &mut buffer[..];
    match inside(framer, &mut whole[from..from + PACKET_SIZE], b) {
        Some(count) => Going::On(count),
        None => Going::Left,
    }
}

// A byte that ends no packet goes behind those before it: how many there are then. One that ends it, or is too low a length, is left.
fn inside(framer: Framer, line: &mut [u8], b: u8) -> Option<usize>
    requires { (packet_size ≤ length line.old) × (framer.deaf ≡ false) }
    ensures { Inside framer line.old b result line.new }
{
    let n = framer.count;
    if n != 0 {
        let length = usize::from(line[0]);
        if n <= length {
            if length < HEAD_SIZE {
                return None;
            }
            line[n] = b;
            return Some(n + 1);
        }
        // A count that cannot be is 0. It is tested last: `begun` before the length would cost each byte three instructions.
        if n < PACKET_SIZE {
            return None;
        }
    }
    // The first byte of a packet is its length.
    if usize::from(b) < HEAD_SIZE {
        return None;
    }
    line[0] = b;
    Some(1)
}

// A gap with nothing begun.
fn pause(framer: Framer, second: bool, buffer: &[u8; LINE_SIZE]) -> Going
    ensures { GoesOn framer second buffer.now Event.CharacterGap result buffer.now }
{
    if framer.deaf {
        return Going::Woken;
    }
    match begun(framer) {
        0 => Going::On(0),
        _ => Going::Left,
    }
}

// What went in silence: the halves afterwards, and how many bytes.
#[derive(Clone, Copy)]
pub struct TakenIn {
    pub halves: Halves,
    pub count: usize,
}

// Many bytes at once: as many, from the first on, as the framer tells nothing of. Those inside a packet are moved behind the ones before
// them in one go, and a deaf framer ignores all. The byte that ends a packet is left, and so is too low a length. As in `go_on` there
// is no test for number 13.
pub fn take_in(halves: Halves, buffer: &mut [u8; LINE_SIZE], bytes: &[u8]) -> TakenIn
    ensures { TakesIn halves buffer.old bytes.now result buffer.new }
{
    if bytes.is_empty() {
        return TakenIn { halves, count: 0 };
    }
    if halves.framer.deaf {
        return TakenIn {
            halves: Halves {
                framer: deaf(),
                ..halves
            },
            count: bytes.len(),
        };
    }
    let from = place(halves.second);
    let n = begun(halves.framer);
    let count = inside_of(n, &buffer[from..], bytes);
    if count == 0 {
        return TakenIn { halves, count };
    }
    words::copy(&bytes[..count], &mut buffer[from + n..from + n + count]);
    TakenIn {
        halves: Halves {
            framer: Framer {
                deaf: false,
                count: n + count,
            },
            ..halves
        },
        count,
    }
}

// How many of these bytes go inside the packet of which n bytes stand in the line, its last byte not among them.
fn inside_of(n: usize, line: &[u8], bytes: &[u8]) -> usize
    requires { (n < packet_size) × (packet_size ≤ length line.now) × (1 ≤ length bytes.now) }
    ensures { InsideOf n line.now bytes.now result }
{
    let length = length_of(n, line, bytes);
    if length < n || length < HEAD_SIZE {
        return 0;
    }
    bytes.len().min(length + 1 - n)
}

// The first byte of a packet is its length: it stands in the line, or is the first to come.
fn length_of(n: usize, line: &[u8], bytes: &[u8]) -> usize
    requires { (1 ≤ length line.now) × (1 ≤ length bytes.now) }
    ensures { LengthOf n line.now bytes.now result }
{
    if n == 0 {
        usize::from(bytes[0])
    } else {
        usize::from(line[0])
    }
}

// The first n bytes of the half that receives.
#[tactic(auto, unfolding(crate::specs::Halves::received_in))]
pub fn received(halves: Halves, buffer: &[u8; LINE_SIZE], n: usize) -> &[u8]
    ensures { Received halves buffer.now n result.now }
{
    if n > PACKET_SIZE {
        return &[];
    }
    let from = place(halves.second);
    &buffer[from..from + n]
}

// The last accepted packet.
#[tactic(auto, unfolding(crate::specs::Halves::kept_in))]
pub fn kept(halves: Halves, buffer: &[u8; LINE_SIZE]) -> &[u8]
    ensures { Kept halves buffer.now result.now }
{
    let from = place(!halves.second);
    &buffer[from..from + last(halves)]
}

// A packet of n bytes is accepted: it stays, and the other half receives.
pub fn accept(halves: Halves, n: usize) -> Halves
    ensures { AcceptsLast halves n result }
{
    Halves {
        second: !halves.second,
        last: n,
        ..halves
    }
}

// Where a half starts.
#[tactic(auto, unfolding(crate::specs::Halves::place_of))]
fn place(second: bool) -> usize
    ensures { Place second result }
{
    if second { PACKET_SIZE } else { 0 }
}

// How many bytes the last accepted packet has.
#[tactic(auto, unfolding(crate::specs::Halves::last_of))]
fn last(halves: Halves) -> usize
    ensures { Last halves result }
{
    below(halves.last, BODY_SIZE + 1)
}
