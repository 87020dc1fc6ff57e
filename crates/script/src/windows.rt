// What a receiver's window says of a number and of itself, and what marking a range of numbers in a copy
// of it marks and leaves. The window stays as it is.
use super::calls;
use super::calls::Call;
use config::refusal::Refusal;
use config::sequence::SeqNum;
use std::io;
use std::io::Write;
use window::window::{Class, ReceiveWindow, SeqRange, WindowAnswer};

fn refused(out: &mut impl Write, why: Refusal) -> io::Result<()> {
    write!(out, "refused {}", why.number())
}

fn named(out: &mut impl Write, class: Class) -> io::Result<()> {
    match class {
        Class::New(gap) => write!(out, "class N {gap}"),
        Class::Late => write!(out, "class L 0"),
        Class::Duplicate => write!(out, "class D 0"),
    }
}

fn class(out: &mut impl Write, c: Result<Class, Refusal>) -> io::Result<()> {
    match c {
        Ok(class) => named(out, class),
        Err(why) => refused(out, why),
    }
}

fn processed(out: &mut impl Write, k: Result<bool, Refusal>) -> io::Result<()> {
    match k {
        Ok(is) => write!(out, " processed {}", u8::from(is)),
        Err(why) => refused(out, why),
    }
}

fn span(out: &mut impl Write, s: Option<SeqRange>) -> io::Result<()> {
    match s {
        None => write!(out, "-"),
        Some(range) => write!(out, "{},{}", range.first, range.count),
    }
}

fn extent(out: &mut impl Write, e: Result<Option<SeqRange>, Refusal>) -> io::Result<()> {
    match e {
        Ok(s) => span(out, s),
        Err(why) => refused(out, why),
    }
}

// What the window takes a number for, and whether it was processed.
fn number(out: &mut impl Write, w: ReceiveWindow, seq: SeqNum) -> io::Result<()> {
    let classified = w.classify(seq);
    let known = w.is_processed(seq);
    class(out, classified.answer)?;
    processed(out, known.answer)
}

// A name, and the numbers that it has.
fn extended(
    out: &mut impl Write,
    name: &str,
    by: WindowAnswer<Option<SeqRange>>,
) -> io::Result<()> {
    write!(out, " {name} ")?;
    extent(out, by.answer)
}

// What marking the range answers, and the bits that it leaves.
fn marked(out: &mut impl Write, w: ReceiveWindow, range: SeqRange) -> io::Result<()> {
    let after = w.mark_range(range);
    let left = after.window;
    let b = left.bits;
    extended(out, "marked", after)?;
    write!(out, " bits {:016X}{:016X}", b.high, b.low)
}

// window NUMBER COUNT
pub fn all(out: &mut impl Write, w: ReceiveWindow, c: Call) -> io::Result<()> {
    let first = calls::half(c.a);
    let count = calls::half(c.b);
    number(out, w, first)?;
    extended(out, "missing", w.missing())?;
    extended(out, "request", w.request())?;
    marked(out, w, SeqRange { first, count })
}
