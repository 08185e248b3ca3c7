// The hub listing on the cases that §16's example leaves out, which stand in the file `stdin`. The text buffer is small and odd, so
// that reads cut packets and pairs of digits everywhere, and the room is full after a few lines.
#![tactic(auto)]

fn main(rt: HostRuntime) {
    hub_lister::run_on_streams(&rt, &mut [0; 7], &mut [0; 12400]);
}
