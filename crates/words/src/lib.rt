// Bytes copied to the front of a room, as the crates above call it; and a byte as a count and a comparison of two slices in the words of our
// definitions, which no code calls any more: the crates above have `usize::from` and `==`.
#![tactic(auto)]

ghost use Rattle.words.specs.Lists.{Wide, Copied, Compared};

// A byte as a number of bytes.
pub fn wide(b: u8) -> usize
    ensures { Wide b result }
{
    usize::from(b)
}

// As many bytes of `from` as `room` holds, copied to its front; the rest of the room stays.
pub fn copy(from: &[u8], room: &mut [u8])
    ensures { Copied from.now room.old room.new }
{
    let n = from.len().min(room.len());
    let part = &from[..n];
    // copy_from_slice of a length that is known only at run time calls C's memmove, and the archive for C needs no other library.
    for (i, byte) in part.iter().enumerate() {
        room[i] = *byte;
    }
}

// Whether both hold the same bytes; left at the first difference. A loop: the proof of a `==` here breaks at every other form, also at a right
// one, and no wrong program would show more than that.
pub fn same(a: &[u8], b: &[u8]) -> bool
    ensures { Compared a.now b.now result }
{
    if a.len() != b.len() {
        return false;
    }
    for i in 0..a.len() {
        if a[i] != b[i] {
            return false;
        }
    }
    true
}
