// hear NOW BYTES: a payload arrives. Each of its commands is given to its end, by the call that the script has for it.
ghost use Rattle.std.specs.Prelude.{IfSome};
ghost use Rattle.text.specs.Counts.{IsPrefixLen};

use made_calls::caller::Caller;
use made_calls::reading::Reading;
use made_calls::{reading, streams};
use script::items::Item;
use script::{answers, items};
use std::io;
use std::io::Write;
use text::fields::Fields;
use text::forms::Answer;
use text::out::Output;

// Makes the call that takes an item. What no call takes is shown.
fn given(caller: &mut Caller, item: Item, time: u64) -> Answer {
    match item {
        Item::Data(d) => streams::data(caller, time, d.seq),
        Item::Request(q) => streams::request(caller, q.seq, q.count),
        Item::Error(e) => streams::error(caller, e.reason, e.seq),
        _ => answers::plain(answers::SHOWN),
    }
}

// What follows the answer's text: words that are handed on, or the item.
fn rest(
    out: &mut Output<'_, impl Print>,
    answer: Answer,
    item: Item,
    words: &[u32],
) -> io::Result<()> {
    match item {
        Item::Data(d) => match answer.form {
            answers::NEW | answers::LATE => items::handed(out, d, words, b' '),
            _ => Ok(()),
        },
        Item::Request(_) | Item::Error(_) => Ok(()),
        _ => items::show(out, item, words),
    }
}

// Each item; `-` where there is none.
fn each(
    out: &mut Output<'_, impl Print>,
    caller: &mut Caller,
    time: u64,
    bytes: &[u8],
) -> io::Result<()> {
    let mut reading = Reading::new(bytes);
    for i in 0..reading::MOST {
        let Some(item) = reading.next() else {
            if i == 0 {
                out.byte(b'-')?;
            }
            break;
        };
        if 0 < i {
            write!(out, " | ")?;
        }
        let answer = given(caller, item, time);
        answers::say(out, answer)?;
        rest(out, answer, item, reading.words())?;
    }
    Ok(())
}

// The time and the bytes of a payload, and how many these are.
fn fields_of(line: &[u8], into: &mut [u8]) -> Option<(u64, usize)>
    ensures { IfSome result (λ f. IsPrefixLen f.1 into.new) }
{
    let mut fields = Fields::new(line);
    fields.text()?;
    let time = fields.figure(u64::MAX)?;
    let n = fields.bytes(into)?;
    Some((time, n))
}

pub fn line(out: &mut Output<'_, impl Print>, caller: &mut Caller, line: &[u8]) -> io::Result<()> {
    let mut bytes = [0u8; 2000];
    match fields_of(line, &mut bytes) {
        None => answers::say(out, answers::plain(answers::BAD))?,
        Some((time, n)) => {
            let payload = &bytes[..n];
            if reading::is_signed(payload) {
                each(out, caller, time, payload)?;
            } else {
                answers::say(out, answers::refused(reading::UNSIGNED))?;
            }
        }
    }
    out.byte(b'\n')
}
