// Runs outside vectors through the packet library and prints what it found, a line for each.
// A line ends with `ok`, or with `WRONG` where something else is due. The last line has the number of comparisons made and
// of those wrong.
#![tactic(auto)]

mod rules;
mod tally;
mod trials;
mod worked;

use tally::Tally;

fn main(rt: HostRuntime) {
    let mut t = Tally::new();
    worked::packets(&rt, &mut t);
    rules::rules(&rt, &mut t);
    let Tally { made, wrong, .. } = t;
    let _ = print!(rt; "COMPARED {made} WRONG {wrong}\n");
}
