// The hub listing from a reader to a writer. It streams: the lines due for what has been read are written out before the next read.
// No contract can say what standard input gives or standard output takes, so those here say that a listing goes on from where it stood.
ghost use Rattle.std.specs.Prelude.{◌≤◌, length};
ghost use Rattle.hub_lister.specs.Promises.{lines_size, Ran, Left};

use crate::{LINES_SIZE, Lister, finish, hear, start};
use framer::LINE_SIZE;
use packet::MESSAGE_SIZE;
use std::io::{self, Input, Print, Read, Write};

// Reads as much at a time as the text buffer holds, to the end of the input or to what is wrong. A room under LINES_SIZE is too small
// for the lines of one character, and nothing is read then.
pub fn run<R: Read, W: Write>(
    reader: &mut R,
    writer: &mut W,
    line: &mut [u8; LINE_SIZE],
    gather: &mut [u8; MESSAGE_SIZE],
    text: &mut [u8],
    room: &mut [u8],
) -> Lister
    ensures { Ran result line.new gather.new }
{
    let mut lister = start();
    if room.len() < LINES_SIZE {
        return lister;
    }
    // A proved loop has to end, and nothing says that the input does: so it stops after more reads than a run can make.
    for _ in 0..u64::MAX {
        let count = read(reader, text);
        if count == 0 {
            end(writer, lister, room);
            return lister;
        }
        lister = tell(writer, lister, line, gather, &text[..count], room);
        if lister.ended {
            return lister;
        }
    }
    lister
}

// The same from standard input to standard output, with the hub's two buffers of its own. Text and room are lent as slices, which fit
// the memory: of sizes given as const parameters that would have to be required.
pub fn run_on_streams(rt: &(impl Input + Print), text: &mut [u8], room: &mut [u8]) -> Lister
    ensures { Left result }
{
    let mut line = [0; LINE_SIZE];
    let mut gather = [0; MESSAGE_SIZE];
    run(
        &mut rt.reader(),
        &mut io::writer(rt),
        &mut line,
        &mut gather,
        text,
        room,
    )
}

// The lines due for a text. The room may be full before the text ends.
// `hear` is public and takes the buffers one by one; a struct of them, made here, would be taken apart again for it.
fn tell<W: Write>(
    writer: &mut W,
    lister: Lister,
    line: &mut [u8; LINE_SIZE],
    gather: &mut [u8; MESSAGE_SIZE],
    text: &[u8],
    room: &mut [u8],
) -> Lister
    requires { Ran lister line.old gather.old × (lines_size ≤ length room.old) }
    ensures { Ran result line.new gather.new }
{
    let mut present = lister;
    let mut rest = text;
    // How much of the rest a call takes is known from its answer alone, so no `for` goes over the text.
    while !present.ended && !rest.is_empty() {
        let listed = hear(present, line, gather, rest, room);
        write(writer, room, listed.count);
        rest = &rest[listed.taken..];
        present = listed.lister;
    }
    present
}

fn end<W: Write>(writer: &mut W, lister: Lister, room: &mut [u8]) {
    let count = finish(lister, room);
    write(writer, room, count);
}

// How many bytes came. A read that fails ends the input.
fn read<R: Read>(reader: &mut R, text: &mut [u8]) -> usize
    ensures { result ≤ length text.new }
{
    reader.read(text).unwrap_or(0)
}

// Where a write fails nobody is left to be told.
fn write<W: Write>(writer: &mut W, room: &[u8], count: usize)
    requires { count ≤ length room.now }
{
    let _ = writer.write_all(&room[..count]);
}
