// Control values as bytes, so that a caller in another language keeps them without knowing them. What stands where is said in
// specs/Control.antt; any bytes are some control value.
ghost use Rattle.std.specs.Prelude.{◌≤◌, length};
ghost use Rattle.words.specs.Lists.{Over};
ghost use Rattle.table.specs.Rows.{parameter_count};
ghost use Rattle.motikhund.specs.Control.{number_size, framer_control_size, halves_size, gathering_size, hub_control_size, sender_control_size, table_size, device_size, reader_control_size, PartOf, NumberIn, PutsNumber, FramerIn, PutsFramer, HalvesIn, PutsHalves, GatheringIn, PutsGathering, HubIn, PutsHub, SenderIn, PutsSender, LocksIn, LockBytes, TableIn, PutsTable, DeviceIn, PutsDevice, Switches, ReaderIn, PutsReader, PermanentChanged};

use commands::Device;
use framer::{Framer, Halves};
use hub::{Gathering, Hub};
use reader::Reader;
use sender::Sender;
use table::{PARAMETER_COUNT, Table};

// The sizes, part by part. A part begins where those before it end, so a size is also a place.
const NUMBER_SIZE: usize = 8;

pub const FRAMER_CONTROL_SIZE: usize = NUMBER_SIZE + 1;

// The front of a hub's and of a reader's: its framer, and which half of the line receives.
pub const GOING_SIZE: usize = FRAMER_CONTROL_SIZE + 1;

const HALVES_SIZE: usize = GOING_SIZE + NUMBER_SIZE;

// Of what is gathered: barred, begun and the code, before the count.
const GATHERING_FRONT: usize = 3;

const GATHERING_SIZE: usize = GATHERING_FRONT + NUMBER_SIZE;

pub const HUB_CONTROL_SIZE: usize = HALVES_SIZE + GATHERING_SIZE;

// Of a sender: three flags and the code, before the five numbers.
const SENDER_FRONT: usize = 4;

const SENDER_AT: usize = SENDER_FRONT + NUMBER_SIZE;

const SENDER_PIECE: usize = SENDER_AT + NUMBER_SIZE;

const SENDER_RESENDS: usize = SENDER_PIECE + NUMBER_SIZE;

const SENDER_COPIES: usize = SENDER_RESENDS + NUMBER_SIZE;

pub const SENDER_CONTROL_SIZE: usize = SENDER_COPIES + NUMBER_SIZE;

const VALUES_SIZE: usize = 2 * PARAMETER_COUNT;

const TABLE_SIZE: usize = VALUES_SIZE + PARAMETER_COUNT;

const DEVICE_SIZE: usize = TABLE_SIZE + 4;

// Of a reader: its line and how long the last answer was, before the device.
const READER_FRONT: usize = HALVES_SIZE + NUMBER_SIZE;

const READER_PERMANENT: usize = READER_FRONT + PARAMETER_COUNT;

const READER_SENDER: usize = READER_FRONT + DEVICE_SIZE;

pub const READER_CONTROL_SIZE: usize = READER_SENDER + SENDER_CONTROL_SIZE;

// ---- parts and numbers

// Here and below each function asks for its own size of a slice: as an array, each part would be cut out by an Option that is never None.

// `part` and `put` are loops: copy_from_slice, inlined here, first compares the addresses, and the code of a table is five times as long; not
// inlined it calls C's memmove, which the archive must not need.
fn part<const N: usize>(s: &[u8]) -> [u8; N]
    requires { N ≤ length s.now }
    ensures { PartOf N s.now result }
{
    let mut part = [0; N];
    for i in 0..N {
        part[i] = s[i];
    }
    part
}

fn put<const N: usize>(part: &[u8; N], room: &mut [u8])
    requires { N ≤ length room.old }
    ensures { Over part.now room.old room.new }
{
    for i in 0..N {
        room[i] = part[i];
    }
}

fn number(s: &[u8]) -> usize
    requires { number_size ≤ length s.now }
    ensures { NumberIn s.now result }
{
    usize::from_le_bytes(part::<NUMBER_SIZE>(s))
}

pub(crate) fn put_number(n: usize, room: &mut [u8])
    requires { number_size ≤ length room.old }
    ensures { PutsNumber n room.old room.new }
{
    put(&n.to_le_bytes(), room);
}

// ---- the framer, alone and over two halves

// A flag is compared with 1 here and below: any other byte is one that does not hold.

pub(crate) fn framer(s: &[u8]) -> Framer
    requires { framer_control_size ≤ length s.now }
    ensures { FramerIn s.now result }
{
    Framer {
        count: number(s),
        deaf: s[NUMBER_SIZE] == 1,
    }
}

pub(crate) fn put_framer(framer: Framer, room: &mut [u8])
    requires { framer_control_size ≤ length room.old }
    ensures { PutsFramer framer room.old room.new }
{
    put_number(framer.count, room);
    room[NUMBER_SIZE] = u8::from(framer.deaf);
}

fn halves(s: &[u8]) -> Halves
    requires { halves_size ≤ length s.now }
    ensures { HalvesIn s.now result }
{
    Halves {
        framer: framer(s),
        second: s[FRAMER_CONTROL_SIZE] == 1,
        last: number(&s[GOING_SIZE..]),
    }
}

fn put_halves(halves: Halves, room: &mut [u8])
    requires { halves_size ≤ length room.old }
    ensures { PutsHalves halves room.old room.new }
{
    put_framer(halves.framer, room);
    room[FRAMER_CONTROL_SIZE] = u8::from(halves.second);
    put_number(halves.last, &mut room[GOING_SIZE..]);
}

// ---- the hub

fn gathering(s: &[u8]) -> Gathering
    requires { gathering_size ≤ length s.now }
    ensures { GatheringIn s.now result }
{
    Gathering {
        barred: s[0] == 1,
        begun: s[1] == 1,
        code: s[2],
        count: number(&s[GATHERING_FRONT..]),
    }
}

fn put_gathering(gathering: Gathering, room: &mut [u8])
    requires { gathering_size ≤ length room.old }
    ensures { PutsGathering gathering room.old room.new }
{
    let front = [
        u8::from(gathering.barred),
        u8::from(gathering.begun),
        gathering.code,
    ];
    put(&front, room);
    put_number(gathering.count, &mut room[GATHERING_FRONT..]);
}

pub(crate) fn hub(s: &[u8]) -> Hub
    requires { hub_control_size ≤ length s.now }
    ensures { HubIn s.now result }
{
    Hub {
        line: halves(s),
        gathering: gathering(&s[HALVES_SIZE..]),
    }
}

pub(crate) fn put_hub(hub: Hub, room: &mut [u8])
    requires { hub_control_size ≤ length room.old }
    ensures { PutsHub hub room.old room.new }
{
    put_halves(hub.line, room);
    put_gathering(hub.gathering, &mut room[HALVES_SIZE..]);
}

// ---- the sender

pub(crate) fn sender(s: &[u8]) -> Sender
    requires { sender_control_size ≤ length s.now }
    ensures { SenderIn s.now result }
{
    Sender {
        out: s[0] == 1,
        code: s[1],
        length: number(&s[SENDER_FRONT..]),
        at: number(&s[SENDER_AT..]),
        size: number(&s[SENDER_PIECE..]),
        resends: number(&s[SENDER_RESENDS..]),
        copies: number(&s[SENDER_COPIES..]),
        failed: s[2] == 1,
        delivered: s[3] == 1,
    }
}

pub(crate) fn put_sender(sender: Sender, room: &mut [u8])
    requires { sender_control_size ≤ length room.old }
    ensures { PutsSender sender room.old room.new }
{
    let front = [
        u8::from(sender.out),
        sender.code,
        u8::from(sender.failed),
        u8::from(sender.delivered),
    ];
    put(&front, room);
    put_number(sender.length, &mut room[SENDER_FRONT..]);
    put_number(sender.at, &mut room[SENDER_AT..]);
    put_number(sender.size, &mut room[SENDER_PIECE..]);
    put_number(sender.resends, &mut room[SENDER_RESENDS..]);
    put_number(sender.copies, &mut room[SENDER_COPIES..]);
}

// ---- the reader

pub(crate) fn locks(s: &[u8]) -> [bool; PARAMETER_COUNT]
    requires { parameter_count ≤ length s.now }
    ensures { LocksIn s.now result }
{
    part::<PARAMETER_COUNT>(s).map(|b| b == 1)
}

pub(crate) fn lock_bytes(locked: [bool; PARAMETER_COUNT]) -> [u8; PARAMETER_COUNT]
    ensures { LockBytes locked result }
{
    // A loop, since with map `mk_reader_hear` takes 48 bytes more of stack and 160 of code.
    let mut bytes = [0; PARAMETER_COUNT];
    for i in 0..PARAMETER_COUNT {
        bytes[i] = u8::from(locked[i]);
    }
    bytes
}

fn table(s: &[u8]) -> Table
    requires { table_size ≤ length s.now }
    ensures { TableIn s.now result }
{
    Table {
        present: part::<PARAMETER_COUNT>(s),
        permanent: part::<PARAMETER_COUNT>(&s[PARAMETER_COUNT..]),
        locked: locks(&s[VALUES_SIZE..]),
    }
}

fn put_table(table: Table, room: &mut [u8])
    requires { table_size ≤ length room.old }
    ensures { PutsTable table room.old room.new }
{
    put(&table.present, room);
    put(&table.permanent, &mut room[PARAMETER_COUNT..]);
    put(&lock_bytes(table.locked), &mut room[VALUES_SIZE..]);
}

fn device(s: &[u8]) -> Device
    requires { device_size ≤ length s.now }
    ensures { DeviceIn s.now result }
{
    let switches = commands::Switches {
        scanning: s[TABLE_SIZE] == 1,
        session: s[TABLE_SIZE + 1] == 1,
        aim: s[TABLE_SIZE + 2] == 1,
        led: s[TABLE_SIZE + 3] == 1,
    };
    Device {
        table: table(s),
        switches,
    }
}

fn put_device(device: Device, room: &mut [u8])
    requires { device_size ≤ length room.old }
    ensures { PutsDevice device room.old room.new }
{
    let switches = device.switches;
    let flags = [
        u8::from(switches.scanning),
        u8::from(switches.session),
        u8::from(switches.aim),
        u8::from(switches.led),
    ];
    put_table(device.table, room);
    put(&flags, &mut room[TABLE_SIZE..]);
}

// What is switched on: scanning, session, aim, LED. The same four as in `put_device`, but as `mk_reader_switches` gives them: a function over
// both types would be longer than the lists.
pub(crate) fn switches(device: Device, values: &mut [usize; 4])
    ensures { Switches device values.new }
{
    let switches = device.switches;
    *values = [
        usize::from(switches.scanning),
        usize::from(switches.session),
        usize::from(switches.aim),
        usize::from(switches.led),
    ];
}

pub(crate) fn reader(s: &[u8]) -> Reader
    requires { reader_control_size ≤ length s.now }
    ensures { ReaderIn s.now result }
{
    Reader {
        line: halves(s),
        last_answer: number(&s[HALVES_SIZE..]),
        device: device(&s[READER_FRONT..]),
        sender: sender(&s[READER_SENDER..]),
    }
}

pub(crate) fn put_reader(reader: Reader, room: &mut [u8])
    requires { reader_control_size ≤ length room.old }
    ensures { PutsReader reader room.old room.new }
{
    put_halves(reader.line, room);
    put_number(reader.last_answer, &mut room[HALVES_SIZE..]);
    put_device(reader.device, &mut room[READER_FRONT..]);
    put_sender(reader.sender, &mut room[READER_SENDER..]);
}

// Whether a reader's permanent values differ from those that stand in control bytes.
pub(crate) fn permanent_changed(s: &[u8], after: Reader) -> bool
    requires { reader_control_size ≤ length s.now }
    ensures { PermanentChanged s.now after result }
{
    part::<PARAMETER_COUNT>(&s[READER_PERMANENT..]) != after.device.table.permanent
}
