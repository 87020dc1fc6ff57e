// Held notes on standard input, a line for each call, each answered with one line:
//
//   group G             starts, with no note held
//   new WORD..          a delivery of that class with these words, 8 hexadecimal digits each
//   late WORD..
//   dup WORD..
//   newloss WORD..      a New that reports a loss
//   loss                an event with a loss
//   error               a Retransmit Error without one
//   restart             the stream was started again
//   held                the notes that are held now
//
// `held` answers `held` and the notes, all others `given` and the notes given, as CHANNEL:NOTE in decimal, or
// `refused 12`, which a group above 15 answers, and each call until the next `group`. Empty lines and those
// that begin with # answer nothing; a line that is none of these, and one before the first `group`, answers
// `bad`.
#![tactic(auto)]

ghost use Rattle.std.specs.Prelude.{IfSome};
ghost use Rattle.text.specs.Counts.{IsPrefixLen};

use command::retransmit::RetransmitError;
use held_notes::held::{Given, HeldNotes};
use held_notes::listing::Notes;
use held_notes::{held, listing};
use receiver::receiver::{Delivery, StreamEvent};
use std::io;
use std::io::Write;
use text::forms::{Call, Form};
use text::lines::Lines;
use text::out::Output;
use text::{blocks, forms, lines};
use window::window::{Class, SeqRange};

#[derive(Clone, Copy)]
enum Kind {
    Group,
    New,
    Late,
    Dup,
    NewLoss,
    Loss,
    Error,
    Restart,
    Held,
}

const CALLS: [Form<Kind>; 9] = [
    Form {
        kind: Kind::Group,
        name: "group",
        fields: "8",
    },
    Form {
        kind: Kind::New,
        name: "new",
        fields: "*",
    },
    Form {
        kind: Kind::Late,
        name: "late",
        fields: "*",
    },
    Form {
        kind: Kind::Dup,
        name: "dup",
        fields: "*",
    },
    Form {
        kind: Kind::NewLoss,
        name: "newloss",
        fields: "*",
    },
    Form {
        kind: Kind::Loss,
        name: "loss",
        fields: "",
    },
    Form {
        kind: Kind::Error,
        name: "error",
        fields: "",
    },
    Form {
        kind: Kind::Restart,
        name: "restart",
        fields: "",
    },
    Form {
        kind: Kind::Held,
        name: "held",
        fields: "",
    },
];

// ---- printing

fn listed(out: &mut impl Write, notes: Notes) -> io::Result<()> {
    let items = notes.items;
    let n = notes.count.min(items.len());
    for &note in &items[..n] {
        write!(out, " {}:{}", note / 128, note % 128)?;
    }
    writeln!(out)
}

// What a call gave.
fn shown(out: &mut impl Write, given: Given) -> io::Result<()> {
    match given.answer {
        Ok(()) => {
            write!(out, "given")?;
            listed(out, given.notes)
        }
        Err(why) => writeln!(out, "refused {}", why.number()),
    }
}

// ---- calls

// A delivery that was not refused: its number and its gap are looked at by nobody.
fn delivered(state: HeldNotes, class: Class, lost: Option<SeqRange>, words: &[u32]) -> Given {
    let mut body = [0u8; 1020];
    for (bytes, word) in body.chunks_exact_mut(4).zip(words) {
        bytes.copy_from_slice(&word.to_be_bytes());
    }
    let n = 4 * words.len().min(255);
    let hearing = Ok(Delivery {
        seq: 0,
        class,
        gap: None,
        lost,
    });
    held::delivered(state, hearing, &body[..n])
}

// A loss of a number that nobody looks at.
fn loss() -> SeqRange {
    SeqRange { first: 0, count: 1 }
}

// A group as wide as its field: all above 15 are refused alike.
fn byte_of(n: u64) -> u8 {
    u8::try_from(n).unwrap_or(u8::MAX)
}

// Keeps the state after a call, and prints what the call gave.
fn told(out: &mut impl Write, state: &mut Option<HeldNotes>, given: Given) -> io::Result<()> {
    *state = Some(given.state);
    shown(out, given)
}

// The call of a line.
fn read(line: &[u8], figures: &mut [u64], words: &mut [u32]) -> Option<Call<Kind>>
    ensures { IfSome result (λ c. IsPrefixLen c.words words.new) }
{
    if lines::LIMIT < line.len() {
        return None;
    }
    forms::read(&CALLS, line, figures, words)
}

// Runs a call; without a state, which the first `group` brings, none but that.
fn run(
    out: &mut impl Write,
    state: &mut Option<HeldNotes>,
    kind: Kind,
    figure: u64,
    words: &[u32],
) -> io::Result<()> {
    match (kind, *state) {
        (Kind::Group, _) => told(out, state, held::start(byte_of(figure))),
        (_, None) => writeln!(out, "bad"),
        (Kind::Held, Some(s)) => {
            write!(out, "held")?;
            listed(out, listing::listed(s.held))
        }
        (Kind::New, Some(s)) => told(out, state, delivered(s, Class::New(0), None, words)),
        (Kind::Late, Some(s)) => told(out, state, delivered(s, Class::Late, None, words)),
        (Kind::Dup, Some(s)) => { told(out, state, delivered(s, Class::Duplicate, None, words)) }
        (Kind::NewLoss, Some(s)) => {
            told(out, state, delivered(s, Class::New(0), Some(loss()), words))
        }
        (Kind::Loss, Some(s)) => told(
            out,
            state,
            held::told(s, Ok(Some(StreamEvent::DataLoss(loss())))),
        ),
        (Kind::Error, Some(s)) => {
            let error = RetransmitError { reason: 0, seq: 0 };
            told(
                out,
                state,
                held::told(s, Ok(Some(StreamEvent::RetransmitError(error)))),
            )
        }
        (Kind::Restart, Some(s)) => told(out, state, held::restarted(s)),
    }
}

// The answer to a line.
fn answer(out: &mut impl Write, state: &mut Option<HeldNotes>, line: &[u8]) -> io::Result<()> {
    let mut figures = [0u64; 1];
    let mut words = [0u32; 255];
    match read(line, &mut figures, &mut words) {
        Some(call) => {
            let n = call.words;
            run(out, state, call.kind, figures[0], &words[..n])
        }
        None => writeln!(out, "bad"),
    }
}

fn main(rt: HostRuntime) -> io::Result<()> {
    let mut input = [0u8; blocks::SIZE];
    let mut to = [0u8; blocks::SIZE];
    let mut line = [0u8; 4098];
    let mut lines = Lines::new(&rt, &mut input, &mut line);
    let mut state = None;
    lines.each(
        &mut Output::new(&rt, &mut to),
        |out, line| answer(out, &mut state, line),
    )
}
