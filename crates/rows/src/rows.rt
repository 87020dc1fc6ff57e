// What a row has come to, and how far a request reaches.
ghost use Rattle.std.specs.Prelude.{◌≡◌};
ghost use Rattle.rows.specs.Choice.{reached};

use config::range::least;
use packet::writer::PayloadWriter;

// Commands written one after the other, up to the first that does not fit.
#[derive(Clone, Copy)]
pub struct Row {
    pub payload: PayloadWriter,
    pub written: usize,
    // Whether all were.
    pub whole: bool,
}

// Where a walk over entries has come to, and the words that they take.
#[derive(Clone, Copy)]
pub struct Walked {
    pub at: usize,
    pub words: usize,
}

// The commands that are repeated: the first one's header, how many, and the words that they take.
#[derive(Clone, Copy)]
pub struct Repeated {
    pub at: usize,
    pub count: usize,
    pub words: usize,
}

// How many commands a request is answered with, of the `left` ones from its number on; count 0 asks
// for all of them.
pub fn reach(count: usize, left: usize) -> usize
    ensures { result ≡ reached count left }
{
    if count == 0 {
        return left;
    }
    least(count, left)
}
