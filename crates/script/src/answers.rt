// What a call answers, as an entry of a table of answers and its figures. Answers of one kind of call stand in
// the table in the order of the numbers that C has for them: `entry_of` in specs/ and the contracts of `made_calls`
// have the entries as numbers.
ghost use Rattle.std.specs.Prelude.{◌≡◌};
ghost use Rattle.script.specs.Answers.{entry_of, refused_by, unless_refused};

use std::io;
use text::forms;
use text::forms::Answer;
use text::out::Output;

// The entries of the table in `say`, in its order.
pub const BAD: usize = 0;

pub const DONE: usize = 1;

const REFUSED: usize = 2;

// What is printed as it stands follows.
pub const SHOWN: usize = 3;

pub const FIGURE: usize = 4;

pub const WRITTEN: usize = 5;

// Queued, pending, full, an error, not supported.
pub const OUTCOME: usize = 6;

// Nothing due, written, it does not fit.
pub const TAKEN: usize = 11;

// None, or the time.
pub const DEADLINE: usize = 14;

// New and late, after which the words follow that are handed on; a duplicate.
pub const NEW: usize = 16;

pub const LATE: usize = 17;

// None, a loss, a loss by an error, an error.
pub const NONE: usize = 19;

// What `last` answers after them.
pub const EVENT_LAST: usize = 23;

// What it answers after a delivery without and with numbers skipped.
pub const NO_GAP: usize = 27;

pub const GAP: usize = 28;

// Prints an answer.
pub fn say(out: &mut Output<'_, impl Print>, answer: Answer) -> io::Result<()> {
    forms::say(
        out,
        b"bad|ok|refused #||#|ok # # #|\
        queued|pending|full|error # #|notsupported|ok 0|ok 1|more|none|#|\
        N # # # |L # # # |D # # # - 0|none|loss # #|loss # #|error|\
        none|loss -|loss #,#|error #,#|delivery # -|delivery # #,#|",
        answer,
    )
}

// An answer without figures.
pub fn plain(form: usize) -> Answer
    ensures { result ≡ entry_of form 0 0 0 }
{
    of(form, 0, 0, 0)
}

pub fn of(form: usize, a: u64, b: u64, c: u64) -> Answer
    ensures { result ≡ entry_of form a b c }
{
    Answer {
        form,
        figures: [a, b, c, 0],
    }
}

pub fn refused(number: u8) -> Answer
    ensures { result ≡ refused_by number }
{
    of(REFUSED, u64::from(number), 0, 0)
}

// The answer, where the call was not refused.
#[tactic(auto, unfolding(crate::specs::Answers::unless_refused))]
pub fn made(refusal: u8, answer: Answer) -> Answer
    ensures { result ≡ unless_refused refusal answer }
{
    if refusal == 0 {
        return answer;
    }
    refused(refusal)
}

// Of a call that answers its refusal alone.
pub fn done(refusal: u8) -> Answer
    ensures { result ≡ unless_refused refusal (entry_of 1 0 0 0) }
{
    made(refusal, plain(DONE))
}

pub fn figure(refusal: u8, n: u64) -> Answer
    ensures { result ≡ unless_refused refusal (entry_of 4 n 0 0) }
{
    made(refusal, of(FIGURE, n, 0, 0))
}
