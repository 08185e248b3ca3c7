// Reads a line's bytes and gaps from standard input and writes what the hub does: §16, the hub listing.
#![tactic(auto)]

// As much as is read at a time, and the room for lines.
const LARGE: usize = 65536;

fn main(rt: HostRuntime) {
    hub_lister::run_on_streams(&rt, &mut [0; LARGE], &mut [0; LARGE]);
}
