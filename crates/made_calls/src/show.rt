// The answer to a call, a line. Figures are decimal, bytes and words hexadecimal.
use super::caller::Caller;
use super::{loaded, reading};
use script::answers;
use script::calls::{Call, Kind};
use std::io;
use text::forms::Answer;
use text::out::Output;

// The words that a data command hands on; a duplicate and a refused one hand on none.
fn heard(out: &mut Output<'_, impl Print>, answer: Answer, words: &[u32]) -> io::Result<()> {
    match answer.form {
        answers::NEW | answers::LATE => reading::heard(out, words),
        _ => Ok(()),
    }
}

// What follows the answer's text: words handed on, items, or what is there.
fn rest(
    out: &mut Output<'_, impl Print>,
    caller: &Caller,
    call: Call,
    answer: Answer,
    line: &[u8],
    words: &[u32],
) -> io::Result<()> {
    match call.kind {
        Kind::Data => heard(out, answer, words),
        Kind::Read => reading::line(out, line),
        Kind::Payload => out.bytes(caller.written()),
        Kind::Buffer => out.bytes(caller.lent()),
        Kind::State => loaded::whole(out, caller),
        Kind::Window => loaded::window(out, &caller.stream, call),
        Kind::Memory => {
            let history = caller.history();
            out.words(history, 0, history.len())
        }
        _ => Ok(()),
    }
}

pub fn line(
    out: &mut Output<'_, impl Print>,
    caller: &Caller,
    call: Call,
    answer: Answer,
    line: &[u8],
    words: &[u32],
) -> io::Result<()> {
    answers::say(out, answer)?;
    rest(out, caller, call, answer, line, words)?;
    out.byte(b'\n')
}
