// Prints what a receive window of 64 makes of the numbers on standard input (crate `arrival_lines`).
#![tactic(auto)]

use std::io;

fn main(rt: HostRuntime) -> io::Result<()> {
    arrival_lines::run(&rt)
}
