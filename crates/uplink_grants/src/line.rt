// One line: its figures, the step, and the answer.
use std::io;
use text::fields::Fields;
use text::lines;
use text::out::Output;
use uplink::grants::{Step, grant};

// Fields are 16-bit numbers.
const MOST: u64 = 0xFFFF;

// The step that a line asks for, and how many divisions it has.
fn asked(line: &[u8]) -> Option<(Step, usize)> {
    if lines::LIMIT < line.len() {
        return None;
    }
    let mut fields = Fields::new(line);
    let words = fields.figure(MOST)? as u16;
    let turn = fields.figure(MOST)? as u16;
    let mut wants = [0u16; 2048];
    let n = fields.fill(&mut wants, |f| Some(f.figure(MOST)? as u16))?;
    Some((grant(words, turn, &wants[..n]), n))
}

// The grants of `n` divisions, and the next turn.
fn granted(out: &mut Output<'_, impl Print>, step: Step, n: usize) -> io::Result<()> {
    for &words in step.grants.iter().take(n) {
        out.decimal(u64::from(words))?;
        out.byte(b' ')?;
    }
    out.decimal(u64::from(step.turn))
}

// What a step answers.
fn stepped(out: &mut Output<'_, impl Print>, step: Step, n: usize) -> io::Result<()> {
    let answer = step.answer;
    match answer {
        Ok(()) => granted(out, step, n),
        Err(why) => {
            out.text(b"refused ")?;
            out.decimal(u64::from(why.number()))
        }
    }
}

// The answer to a line.
pub fn answer(out: &mut Output<'_, impl Print>, line: &[u8]) -> io::Result<()> {
    match asked(line) {
        Some((step, n)) => stepped(out, step, n)?,
        None => out.text(b"bad")?,
    }
    out.byte(b'\n')
}
