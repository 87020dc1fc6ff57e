// Answers the call script on standard input (crate `script`), in fixed memory whatever its length. A call is one
// of the C functions that customers link, on words in arrays as a C caller lends them: crate `made_calls` makes it
// and says what it answers.
//
//   input blocks -> lines -> fields -> C function -> answer -> output block
//
// What is lent to the calls is the caller's (crate `made_calls`): stream, settings (8 words), memory (32,769 words, the first
// C of them the history), the payload's two words, and its buffer (2,048 bytes, of which BUFFER are lent).
//
// hear gives each command of a payload to its call.
//
// It is run on directed call lists, 01's session cases, a sample of made lists, and lists by hand: every call and
// answer, and the codec's cases. The expected answers are the Rust's; tools/compare.py says how they are made.
#![tactic(auto)]

mod hear;

use made_calls::caller::Caller;
use made_calls::{run, show};
use script::calls::Kind;
use script::{answers, calls};
use std::io;
use text::blocks;
use text::lines::Lines;
use text::out::Output;

// The answer to a line without its end.
fn answer(out: &mut Output<'_, impl Print>, caller: &mut Caller, line: &[u8]) -> io::Result<()> {
    let mut words = [0u32; 454];
    let Some(call) = calls::read(line, &mut words, &mut caller.settings) else {
        answers::say(out, answers::plain(answers::BAD))?;
        return out.byte(b'\n');
    };
    if call.kind == Kind::Hear {
        return hear::line(out, caller, line);
    }
    let n = call.words;
    let answer = run::run(caller, call, &words[..n]);
    show::line(out, caller, call, answer, line, &words[..n])
}

fn main(rt: HostRuntime) -> io::Result<()> {
    let mut input = [0u8; blocks::SIZE];
    let mut to = [0u8; blocks::SIZE];
    let mut line = [0u8; 4098];
    let mut lines = Lines::new(&rt, &mut input, &mut line);
    let mut caller = Caller::new();
    lines.each(
        &mut Output::new(&rt, &mut to),
        |out, line| answer(out, &mut caller, line),
    )
}
