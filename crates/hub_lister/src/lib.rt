// The hub listing (§16): characters of a line in, the lines of what the hub does out.
// Here it works on lent text and lent rooms; `stream` reads and writes.
#![tactic(auto)]

mod stream;

ghost use Rattle.std.specs.Prelude.{◌+◌, ◌≤◌, length};
ghost use Rattle.packet.specs.Sizes.{message_size};
ghost use Rattle.hub.specs.Promises.{hub_answer_size};
ghost use Rattle.hub_lister.specs.Promises.{message_line_size, lines_size, Starts, Listens, Finishes, Characters, Stops, Happens, PutsLines, MessageLine, count_of};

use framer::Event;
pub use framer::LINE_SIZE;
use hub::{HUB_ANSWER_SIZE, Hub, Told};
use listing::{Page, Token};
pub use packet::MESSAGE_SIZE;
pub use stream::{run, run_on_streams};

// A message with its code type in front of it.
const CODED_SIZE: usize = MESSAGE_SIZE + 1;
// Room for the lines of one character, a message and an answer: each a letter, three characters for each byte, and a line feed.
pub const LINES_SIZE: usize = (3 * CODED_SIZE + 2) + (3 * HUB_ANSWER_SIZE + 2);

// Where a listing stands: the hub, the first digit that waits for its second, and whether it has ended with `E`.
// No digit waits once it has ended. The two stay fields of their own: they are public, and an enum of both would change what callers give and read.
#[derive(Clone, Copy)]
pub struct Lister {
    pub hub: Hub,
    pub waiting: Option<u8>,
    pub ended: bool,
}

// So many characters were taken, and so many bytes of lines stand in the room.
#[derive(Clone, Copy)]
pub struct Listed {
    pub lister: Lister,
    pub taken: usize,
    pub count: usize,
}

// What the hub works on: the two buffers that it keeps, and room for what one event brings. The message has its code type in front.
#[derive(Drop)]
struct Buffers<'a> {
    line: &'a mut [u8; LINE_SIZE],
    gather: &'a mut [u8; MESSAGE_SIZE],
    answer: [u8; HUB_ANSWER_SIZE],
    message: [u8; CODED_SIZE],
}

pub fn start() -> Lister
    ensures { Starts result }
{
    Lister {
        hub: hub::switched_on(),
        waiting: None,
        ended: false,
    }
}

// Characters from the front of the text, as long as the room can hold what one more may bring, and the lines due for them.
pub fn hear(
    lister: Lister,
    line: &mut [u8; LINE_SIZE],
    gather: &mut [u8; MESSAGE_SIZE],
    text: &[u8],
    room: &mut [u8],
) -> Listed
    ensures { Listens lister line.old gather.old text.now room.old result line.new gather.new room.new }
{
    let mut buffers = Buffers {
        line,
        gather,
        answer: [0; HUB_ANSWER_SIZE],
        message: [0; CODED_SIZE],
    };
    let mut page = Page { room, at: 0 };
    let mut present = lister;
    for (taken, next) in text.iter().enumerate() {
        if !listing::goes_on(present.ended, LINES_SIZE, page.room.len() - page.at) {
            return Listed {
                lister: present,
                taken,
                count: page.at,
            };
        }
        present = character(present, &mut buffers, *next, &mut page);
    }
    Listed {
        lister: present,
        taken: text.len(),
        count: page.at,
    }
}

// The end of the input. A digit that still waits stands alone.
pub fn finish(lister: Lister, room: &mut [u8]) -> usize
    ensures { Finishes lister room.old result room.new }
{
    listing::put_last(lister.ended, lister.waiting, room)
}

// One character, and the lines due for it. What is wrong ends the listing.
// The room that this and three other functions ask for is there before a character, and no longer behind its lines: a page type that carries
// it would have to be made anew for each character, out of the test in `hear`, and given up at its first line.
fn character(lister: Lister, buffers: &mut Buffers, character: u8, page: &mut Page) -> Lister
    requires { page.old.at + lines_size ≤ length page.old.room.now }
    ensures { Characters lister buffers.old character page.old result buffers.new page.new }
{
    let hub = lister.hub;
    let taken = listing::take(lister.waiting, character);
    let event = match taken.token {
        Token::Nothing => {
            return Lister {
                hub,
                waiting: taken.waiting,
                ended: false,
            };
        }
        Token::Sign(_) | Token::Lone => return stop(hub, page),
        Token::Byte(b) => Event::Byte(b),
        Token::CharacterGap => Event::CharacterGap,
        Token::MessageGap => Event::MessageGap,
    };
    happen(hub, buffers, event, page)
}

fn stop(hub: Hub, page: &mut Page) -> Lister
    requires { page.old.at + lines_size ≤ length page.old.room.now }
    ensures { Stops hub page.old result page.new }
{
    listing::put_error(page);
    Lister {
        hub,
        waiting: None,
        ended: true,
    }
}

// An event, and its lines.
fn happen(hub: Hub, buffers: &mut Buffers, event: Event, page: &mut Page) -> Lister
    requires { page.old.at + lines_size ≤ length page.old.room.now }
    ensures { Happens hub buffers.old event page.old result buffers.new page.new }
{
    let taken = hub::hear(
        hub,
        buffers.line,
        buffers.gather,
        &mut buffers.answer,
        &mut buffers.message[1..],
        event,
    );
    put_lines(
        taken.told,
        taken.answer,
        &buffers.answer,
        &mut buffers.message,
        page,
    );
    Lister {
        hub: taken.hub,
        waiting: None,
        ended: false,
    }
}

// The message first, then the answer. The count goes beside the room, as the hub tells it: the promise names the room whole.
fn put_lines(
    told: Told,
    count: usize,
    answer: &[u8; HUB_ANSWER_SIZE],
    message: &mut [u8; CODED_SIZE],
    page: &mut Page,
)
    requires { (count ≤ hub_answer_size) × (count_of told ≤ message_size) × (page.old.at + lines_size ≤ length page.old.room.now) }
    ensures { PutsLines told count answer.now message.old page.old page.new }
{
    message_line(told, message, page);
    listing::put_answer(&answer[..count], page);
}

// The code type goes in front of the message, so that both are one run of bytes.
fn message_line(told: Told, message: &mut [u8; CODED_SIZE], page: &mut Page)
    requires { (count_of told ≤ message_size) × (page.old.at + message_line_size ≤ length page.old.room.now) }
    ensures { MessageLine told message.old page.old page.new }
{
    if let Told::Message { code, count } = told {
        message[0] = code;
        listing::put_line(b'M', &message[..=count], page);
    }
}
