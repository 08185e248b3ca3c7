// The packet of Simple Serial Interface: its check, its building, ACK and NAK, and the refusals by name.
#![tactic(auto)]

ghost use Rattle.std.specs.Prelude.{◌+◌, ◌≤◌, length};
ghost use Rattle.packet.specs.Promises.{Number, Cause, Sum, Complement, Check, DataPart, Allowed, AllowedSource, Fields, Headed, Sealed, SizeOf, Build, Put, Fill, Answer, Naks, Equal, Resent, IsAnswer};
ghost use Rattle.packet.specs.Sizes.{head_size, checksum_size, data_size, body_size};

// The four bytes before the data, and the checksum behind it.
pub const HEAD_SIZE: usize = 4;

pub const CHECKSUM_SIZE: usize = 2;
// The longest data, and the longest packet with its checksum.
pub const DATA_SIZE: usize = 251;

pub const PACKET_SIZE: usize = HEAD_SIZE + DATA_SIZE + CHECKSUM_SIZE;
// The longest ACK or NAK, which is a NAK.
pub const ANSWER_SIZE: usize = HEAD_SIZE + 1 + CHECKSUM_SIZE;
// The longest message, its code type not counted.
pub const MESSAGE_SIZE: usize = 4096;

// The two sources.
pub const HOST: u8 = 4;

pub const READER: u8 = 0;

pub const CMD_ACK: u8 = 0xD0;

pub const CMD_NAK: u8 = 0xD1;

pub const DECODE_DATA: u8 = 0xF3;

pub const PARAM_SEND: u8 = 0xC6;

pub const PARAM_REQUEST: u8 = 0xC7;

pub const PARAM_DEFAULTS: u8 = 0xC8;

pub const AIM_OFF: u8 = 0xC4;

pub const AIM_ON: u8 = 0xC5;

pub const START_SESSION: u8 = 0xE4;

pub const STOP_SESSION: u8 = 0xE5;

pub const BEEP: u8 = 0xE6;

pub const LED_ON: u8 = 0xE7;

pub const LED_OFF: u8 = 0xE8;

pub const SCAN_ENABLE: u8 = 0xE9;

pub const SCAN_DISABLE: u8 = 0xEA;

// Why a call or a packet is refused, with the numbers by which it is told.
#[derive(Clone, Copy, PartialEq, Eq)]
pub enum Refusal {
    // length below 4
    Length = 1,
    // checksum wrong
    Checksum = 2,
    // cut by a gap, or too few bytes
    Cut = 3,
    // wrong source for this side
    Source = 4,
    // a status bit not allowed
    Status = 5,
    // opcode unknown to this side
    Opcode = 6,
    // data length wrong for the opcode
    Data = 7,
    // beep code not allowed
    Beep = 8,
    // parameter or value not allowed
    Setting = 9,
    // hub: barred, other code type, or too long
    Barred = 10,
    // sender: message too long, or one still out
    Start = 11,
    // a saved set not exactly in its form, or with a value not allowed
    Form = 12,
    // lent room too small
    Room = 13,
    // more bytes than a call takes
    Long = 15,
}

// What stands before the data. The length doesn't count the checksum.
#[derive(Clone, Copy)]
pub struct Head {
    pub length: usize,
    pub opcode: u8,
    pub source: u8,
    pub status: u8,
}

// An answer on the line: CMD_ACK, or CMD_NAK with its cause.
// An Option of a cause would read as an answer or none.
#[derive(Clone, Copy)]
pub enum Reply {
    Ack,
    Nak(u8),
}

// The refusal's number.
pub fn number(refusal: Refusal) -> u8
    ensures { Number refusal result }
{
    // A discriminant is read by `as` alone.
    refusal as u8
}

// The cause of the NAK that answers it. The definition `cause_of` is 0 where nothing goes out, so this is a number too.
pub fn cause(refusal: Refusal) -> u8
    ensures { Cause refusal result }
{
    match refusal {
        Refusal::Length | Refusal::Checksum | Refusal::Cut => 1,
        Refusal::Source | Refusal::Status | Refusal::Opcode | Refusal::Data => 2,
        Refusal::Beep | Refusal::Setting | Refusal::Barred => 6,
        Refusal::Start | Refusal::Form | Refusal::Room | Refusal::Long => 0,
    }
}

// The byte sum of a body. Two bytes hold it, and in two bytes the compiler sums sixteen bytes at a time.
fn sum(s: &[u8]) -> u16
    requires { length s.now ≤ body_size }
    ensures { Sum s.now result }
{
    let mut total = 0;
    for byte in s {
        total += u16::from(*byte);
    }
    total
}

// The checksum of a body: the two's complement of its byte sum.
#[tactic(auto, unfolding(crate::specs::Packet::checksum_of))]
fn checksum(s: &[u8]) -> u16
    requires { length s.now ≤ body_size }
    ensures { Complement s.now result }
{
    sum(s).wrapping_neg()
}

// Judges the front of the bytes it is lent; later bytes aren't read.
#[tactic(auto, unfolding(crate::specs::Packet::check_of, crate::specs::Packet::head_in, crate::specs::Packet::checksum_in, crate::specs::Packet::body_in, crate::specs::Packet::checksum_of))]
pub fn check(s: &[u8]) -> Result<Head, Refusal>
    ensures { Check s.now result }
{
    if s.is_empty() {
        return Err(Refusal::Cut);
    }
    let n = usize::from(s[0]);
    if n < HEAD_SIZE {
        return Err(Refusal::Length);
    }
    if s.len() < n + CHECKSUM_SIZE {
        return Err(Refusal::Cut);
    }
    let found = u16::from_be_bytes([s[n], s[n + 1]]);
    if found != checksum(&s[..n]) {
        return Err(Refusal::Checksum);
    }
    Ok(Head {
        length: n,
        opcode: s[1],
        source: s[2],
        status: s[3],
    })
}

// The data of the packet at the front of these bytes: the part that starts at the fifth byte.
#[tactic(auto, unfolding(crate::specs::Packet::data_in))]
pub fn data_part(s: &[u8]) -> &[u8]
    ensures { DataPart s.now result.now }
{
    if s.len() < HEAD_SIZE {
        return &[];
    }
    let end = usize::from(s[0]).clamp(HEAD_SIZE, s.len());
    &s[HEAD_SIZE..end]
}

// Whether these status bits are allowed with this opcode. Bits are read by division, as the definitions read them (`more_bit`).
#[tactic(auto, unfolding(crate::specs::Packet::status_allowed))]
pub fn status_allowed(opcode: u8, status: u8) -> bool
    ensures { Allowed opcode status result }
{
    if status / 4 % 2 != 0 || status / 16 != 0 {
        return false;
    }
    status / 2 % 2 == 0 || opcode == DECODE_DATA
}

// Whether this is one of the two sources.
#[tactic(auto, unfolding(crate::specs::Packet::source_allowed))]
pub fn source_allowed(source: u8) -> bool
    ensures { AllowedSource source result }
{
    matches!(source, READER | HOST)
}

// What building says of a packet's fields.
// Opcode, source and status come one by one from the calls for C: a struct would be made at each call only to be taken apart.
#[tactic(auto, unfolding(crate::specs::Packet::fields_of))]
fn fields(opcode: u8, source: u8, status: u8, n: usize) -> Result<usize, Refusal>
    ensures { Fields opcode source status n result }
{
    if !source_allowed(source) {
        return Err(Refusal::Source);
    }
    if !status_allowed(opcode, status) {
        return Err(Refusal::Status);
    }
    if n > DATA_SIZE {
        return Err(Refusal::Data);
    }
    Ok(n + HEAD_SIZE + CHECKSUM_SIZE)
}

// The four bytes before the data.
#[tactic(auto, unfolding(words::specs::Lists::over))]
fn header(room: &mut [u8], opcode: u8, source: u8, status: u8, n: usize)
    requires { (n ≤ data_size) × (head_size ≤ length room.old) }
    ensures { Headed room.old opcode source status n room.new }
{
    // The length is at most 255.
    room[..HEAD_SIZE].copy_from_slice(&[(n + HEAD_SIZE) as u8, opcode, source, status]);
}

// The two bytes after a body of n bytes.
#[tactic(auto, unfolding(crate::specs::Packet::seal, crate::specs::Packet::checksum_of, words::specs::Lists::over))]
fn seal(room: &mut [u8], n: usize)
    requires { (n ≤ body_size) × (n + checksum_size ≤ length room.old) }
    ensures { Sealed room.old n room.new }
{
    let worked = checksum(&room[..n]);
    room[n..n + CHECKSUM_SIZE].copy_from_slice(&worked.to_be_bytes());
}

// Header and checksum around n bytes of data that already stand in the room from the fifth byte on.
#[tactic(auto, unfolding(crate::specs::Packet::build_of, crate::specs::Packet::fields_of, crate::specs::Packet::written, words::specs::Lists::over))]
pub fn fill(room: &mut [u8], opcode: u8, source: u8, status: u8, n: usize) -> Result<usize, Refusal>
    ensures { Fill room.old opcode source status n result room.new }
{
    if room.len() < n.saturating_add(HEAD_SIZE + CHECKSUM_SIZE) {
        return Err(Refusal::Room);
    }
    let size = fields(opcode, source, status, n)?;
    header(room, opcode, source, status, n);
    seal(room, n + HEAD_SIZE);
    Ok(size)
}

// A packet at the front of the room; the bytes behind it stay as they were.
#[tactic(auto, unfolding(crate::specs::Packet::build_of, crate::specs::Packet::written, words::specs::Lists::over))]
pub fn build(
    room: &mut [u8],
    opcode: u8,
    source: u8,
    status: u8,
    data: &[u8],
) -> Result<usize, Refusal>
    ensures { Build room.old opcode source status «data».now result room.new }
{
    if room.len() < PACKET_SIZE {
        return Err(Refusal::Room);
    }
    put(room, opcode, source, status, data)
}

// The same in a room that holds the packet, where there is one: nothing is put into the room before its fields are judged.
#[tactic(auto, unfolding(crate::specs::Packet::fields_of, crate::specs::Packet::written, words::specs::Lists::over))]
fn put(room: &mut [u8], opcode: u8, source: u8, status: u8, data: &[u8]) -> Result<usize, Refusal>
    requires { (head_size ≤ length room.old) × (length «data».now ≤ data_size → length «data».now + 6 ≤ length room.old) }
    ensures { Put room.old opcode source status «data».now result room.new }
{
    fields(opcode, source, status, data.len())?;
    words::copy(data, &mut room[HEAD_SIZE..HEAD_SIZE + data.len()]);
    fill(room, opcode, source, status, data.len())
}

// How many bytes were written, 0 where it was refused: the calls for C give a size beside their number, also where they refuse.
pub fn size_of(built: Result<usize, Refusal>) -> usize
    ensures { SizeOf built result }
{
    built.unwrap_or(0)
}

// An answer of either side: CMD_ACK, or CMD_NAK with its cause.
#[tactic(auto, unfolding(crate::specs::Packet::build_of, crate::specs::Packet::written, words::specs::Lists::over, crate::specs::Packet::reply_opcode, crate::specs::Packet::reply_data, crate::specs::Packet::reply_body))]
pub fn answer(room: &mut [u8], source: u8, reply: Reply) -> Result<usize, Refusal>
    ensures { Answer room.old source reply result room.new }
{
    if room.len() < ANSWER_SIZE {
        return Err(Refusal::Room);
    }
    match reply {
        Reply::Ack => put(room, CMD_ACK, source, 0, &[]),
        Reply::Nak(cause) => put(room, CMD_NAK, source, 0, &[cause]),
    }
}

// The NAK that answers a refusal: its size. Where nothing answers it the room stays as it was, and its size is 0, as the cause is.
#[tactic(auto, unfolding(crate::specs::Refusals::nak_of, crate::specs::Refusals::nak_bytes, crate::specs::Packet::build_of, crate::specs::Packet::written, words::specs::Lists::over, crate::specs::Packet::reply_opcode, crate::specs::Packet::reply_data))]
pub fn nak(room: &mut [u8], source: u8, refusal: Refusal) -> Result<usize, Refusal>
    ensures { Naks room.old source refusal result room.new }
{
    if room.len() < ANSWER_SIZE {
        return Err(Refusal::Room);
    }
    let cause = cause(refusal);
    if cause == 0 {
        return Ok(0);
    }
    answer(room, source, Reply::Nak(cause))
}

// Whether two bodies are equal apart from the resend mark; compared where they stand.
pub fn equal_unmarked(a: &[u8], b: &[u8]) -> bool
    ensures { Equal a.now b.now result }
{
    if a.len() != b.len() {
        return false;
    }
    if a.len() < HEAD_SIZE {
        return a == b;
    }
    a[..3] == b[..3] && a[3] / 2 == b[3] / 2 && a[4..] == b[4..]
}

// Whether a body is marked and equal to the last accepted one apart from the mark.
#[tactic(auto, unfolding(crate::specs::Packet::resent_equal, crate::specs::Packet::equal_unmarked))]
pub fn resent_equal(last: &[u8], body: &[u8]) -> bool
    ensures { Resent last.now body.now result }
{
    body.len() >= HEAD_SIZE && body[3] % 2 == 1 && equal_unmarked(last, body)
}

// Whether this is the opcode of an answer.
#[tactic(auto, unfolding(crate::specs::Packet::is_answer))]
pub fn is_answer(opcode: u8) -> bool
    ensures { IsAnswer opcode result }
{
    matches!(opcode, CMD_ACK | CMD_NAK)
}
