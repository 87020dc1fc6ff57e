// `arrivals` once more, on a longer input: several turns, losses, late ones, duplicates, a cut end.
// tools/arrivals_model.py makes the input and the expected output.
#![tactic(auto)]

use std::io;

fn main(rt: HostRuntime) -> io::Result<()> {
    arrival_lines::run(&rt)
}
