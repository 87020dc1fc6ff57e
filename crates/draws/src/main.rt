// Draws from seeds on standard input, a line for each: `SEED N` answers `VALUE WORDS ROUNDS`, the value after N
// draws (8 hexadecimal digits), how many words it asks to send (0 for idle), and the rounds of the jump.
//
//   0 3         D1CCF6E9 6 2
//
// SEED is at most 4294967295 and N at most 65535, both decimal. Empty lines and those that begin with # answer
// nothing; a line that is none of these answers `bad`.
#![tactic(auto)]

use load::load::{Jump, Load};
use std::io;
use text::fields::Fields;
use text::lines::Lines;
use text::out::Output;
use text::{blocks, lines};

// A draw, as its value, the words that it asks to send, and the rounds of the jump to it.
fn drawn(out: &mut Output<'_, impl Print>, jump: Jump) -> io::Result<()> {
    out.hex(&jump.load.last.to_be_bytes())?;
    out.byte(b' ')?;
    out.decimal(jump.load.words().count as u64)?;
    out.byte(b' ')?;
    out.decimal(u64::from(jump.rounds))
}

// The draw that a line asks for.
fn asked(line: &[u8]) -> Option<Jump> {
    if lines::LIMIT < line.len() {
        return None;
    }
    let mut fields = Fields::new(line);
    let last = fields.figure(0xFFFF_FFFF)? as u32;
    let n = fields.figure(0xFFFF)? as u16;
    fields.is_done().then_some(Load { last }.jump(n))
}

// The answer to a line.
fn answer(out: &mut Output<'_, impl Print>, line: &[u8]) -> io::Result<()> {
    match asked(line) {
        Some(jump) => drawn(out, jump)?,
        None => out.text(b"bad")?,
    }
    out.byte(b'\n')
}

fn main(rt: HostRuntime) -> io::Result<()> {
    let mut input = [0u8; blocks::SIZE];
    let mut to = [0u8; blocks::SIZE];
    let mut line = [0u8; 4098];
    let mut lines = Lines::new(&rt, &mut input, &mut line);
    lines.each(
        &mut Output::new(&rt, &mut to),
        |out, line| answer(out, line),
    )
}
