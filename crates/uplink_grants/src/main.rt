// Steps of an uplink on standard input, a line each: `A TURN WANT..` answers `GRANT.. NEXT`, the turn
// after it last. A refusal answers `refused 18`, a line that is none of these `bad`; empty lines and those
// that begin with # answer nothing. Figures are decimal, at most 65,535.
#![tactic(auto)]

mod line;

use std::io;
use text::blocks;
use text::lines::Lines;
use text::out::Output;

fn main(rt: HostRuntime) -> io::Result<()> {
    let mut input = [0u8; blocks::SIZE];
    let mut to = [0u8; blocks::SIZE];
    let mut line = [0u8; 4098];
    let mut lines = Lines::new(&rt, &mut input, &mut line);
    lines.each(
        &mut Output::new(&rt, &mut to),
        |out, line| line::answer(out, line),
    )
}
