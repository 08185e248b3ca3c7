// The count of comparisons, and the bytes of the lines. Where a write fails nobody is left to be told. Most functions take both `rt` and the tally;
// what only counts takes the tally and what only prints takes `rt`, so the two are no struct.

// How many comparisons were made, how many of them found something else than is due, and how many of these before the line began.
#[derive(Clone, Copy)]
pub(crate) struct Tally {
    pub made: usize,
    pub wrong: usize,
    before: usize,
}

impl Tally {
    pub(crate) fn new() -> Tally {
        Tally {
            made: 0,
            wrong: 0,
            before: 0,
        }
    }

    // One comparison more; the only place that counts them.
    pub(crate) fn compare(&mut self, right: bool) {
        count(&mut self.made, true);
        count(&mut self.wrong, !right);
    }

    // Ends a line.
    pub(crate) fn end(&mut self, rt: &impl Print) {
        let word = if self.wrong == self.before {
            "ok"
        } else {
            "WRONG"
        };
        let _ = print!(rt; " {word}\n");
        self.before = self.wrong;
    }
}

// One more where that is so. No count here comes near the end of its type.
pub(crate) fn count(n: &mut usize, so: bool) {
    *n = n.wrapping_add(usize::from(so));
}

// Two capital digits for each byte, after a space.
pub(crate) fn hex(rt: &impl Print, s: &[u8]) {
    for byte in s {
        let _ = print!(rt; " {byte:02X}");
    }
}
