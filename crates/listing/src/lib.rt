// The text that the listings share (§16): characters read as tokens, and lines of bytes put into a lent room.
// Any value is taken; a line that the room does not hold whole from its place on is not put at all.
#![tactic(auto)]

ghost use Rattle.std.specs.Prelude.{◌+◌, ◌*◌, ◌<◌, ◌≤◌, length};
ghost use Rattle.listing.specs.Lines.{hex_bytes, line_of, error_line};
ghost use Rattle.listing.specs.Promises.{IsDigit, Takes, Signs, Joined, Capital, Spelt, PutsLine, PutsAnswer, WritesOn, Finishes, GoesOn};

// What a character says, with the digit before it that waits for its second. Six cases, and each listing answers each of them differently.
#[derive(Clone, Copy)]
pub enum Token {
    Nothing,
    Byte(u8),
    CharacterGap,
    MessageGap,
    // any other sign: each listing says which it knows
    Sign(u8),
    // the digit that waited stands alone
    Lone,
}

// A token, and the digit that waits from here on.
#[derive(Clone, Copy)]
pub struct Taken {
    pub waiting: Option<u8>,
    pub token: Token,
}

// The room for lines, and the place behind those that stand in it.
#[derive(Drop)]
pub struct Page<'a> {
    pub room: &'a mut [u8],
    pub at: usize,
}

// What a character is worth as a hex digit, of either case.
pub fn digit_of(character: u8) -> Option<u8>
    ensures { IsDigit character result }
{
    match character {
        b'0'..=b'9' => Some(character - b'0'),
        b'A'..=b'F' => Some(character - b'A' + 10),
        b'a'..=b'f' => Some(character - b'a' + 10),
        _ => None,
    }
}

// One character of a listing. A digit after one that waits makes a byte; nothing else may stand between the two.
pub fn take(waiting: Option<u8>, character: u8) -> Taken
    ensures { Takes waiting character result }
{
    match (waiting, digit_of(character)) {
        (Some(high), Some(low)) => Taken {
            waiting: None,
            token: Token::Byte(joined(high, low)),
        },
        (Some(_), None) => Taken {
            waiting: None,
            token: Token::Lone,
        },
        (None, Some(first)) => Taken {
            waiting: Some(first),
            token: Token::Nothing,
        },
        (None, None) => Taken {
            waiting: None,
            token: sign(character),
        },
    }
}

// A space and a line end are skipped between tokens.
fn sign(character: u8) -> Token
    ensures { Signs character result }
{
    match character {
        b' ' | b'\n' | b'\r' => Token::Nothing,
        b'.' => Token::CharacterGap,
        b'/' => Token::MessageGap,
        _ => Token::Sign(character),
    }
}

// The byte of two digits; of any other value the lowest four bits count.
fn joined(high: u8, low: u8) -> u8
    ensures { Joined high low result }
{
    high % 16 * 16 + low % 16
}

// The two capital digits of a byte, the high one first.
pub fn spelt(b: u8) -> [u8; 2]
    ensures { Spelt b result }
{
    [capital(b / 16), capital(b % 16)]
}

fn capital(n: u8) -> u8
    requires { n < 16 }
    ensures { Capital n result }
{
    match n {
        0..=9 => b'0' + n,
        _ => b'A' + (n - 10),
    }
}

// A line behind those on the page: its letter, each byte after a space, a line feed. Nothing is put where it does not fit whole.
pub fn put_line(letter: u8, bytes: &[u8], page: &mut Page)
    ensures { PutsLine (line_of letter bytes.now) page.old page.new }
{
    let left = page.room.len().saturating_sub(page.at);
    if left < 2 || bytes.len() > (left - 2) / 3 {
        return;
    }
    write_line(letter, bytes, page);
}

fn write_line(letter: u8, bytes: &[u8], page: &mut Page)
    requires { page.old.at + 3 * length bytes.now + 2 ≤ length page.old.room.now }
    ensures { WritesOn (line_of letter bytes.now) page.old page.new }
{
    write(&[letter], page);
    spell(bytes, page);
    write(b"\n", page);
}

fn spell(bytes: &[u8], page: &mut Page)
    requires { page.old.at + 3 * length bytes.now ≤ length page.old.room.now }
    ensures { WritesOn (hex_bytes bytes.now) page.old page.new }
{
    for b in bytes {
        let [high, low] = spelt(*b);
        write(&[b' ', high, low], page);
    }
}

fn write(bytes: &[u8], page: &mut Page)
    requires { page.old.at + length bytes.now ≤ length page.old.room.now }
    ensures { WritesOn bytes.now page.old page.new }
{
    let end = page.at + bytes.len();
    page.room[page.at..end].copy_from_slice(bytes);
    page.at = end;
}

// The line of an answer, if one goes out.
pub fn put_answer(answer: &[u8], page: &mut Page)
    ensures { PutsAnswer answer.now page.old page.new }
{
    if answer.is_empty() {
        return;
    }
    put_line(b'A', answer, page);
}

// The line of what is wrong.
pub fn put_error(page: &mut Page)
    ensures { PutsLine error_line page.old page.new }
{
    put_line(b'E', b"", page);
}

// The line due at the end of a text, if one is: a digit that still waits stands alone. The answer is how many bytes stand at the room's
// front, so it is a count, and 0 for an empty line.
pub fn put_last(ended: bool, waiting: Option<u8>, room: &mut [u8]) -> usize
    ensures { Finishes ended waiting room.old result room.new }
{
    if ended {
        return 0;
    }
    match waiting {
        Some(_) => {
            let mut page = Page { room, at: 0 };
            put_error(&mut page);
            page.at
        }
        None => 0,
    }
}

// Whether a listing takes one more character, with so much left of the room and the most that its lines can have.
pub fn goes_on(ended: bool, most: usize, left: usize) -> bool
    ensures { GoesOn ended most left result }
{
    !ended && most <= left
}
