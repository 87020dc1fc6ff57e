// The commands that were queued, the oldest that still fit, numbered without a gap.
ghost use Rattle.std.specs.Prelude.{◌≡◌, ◌<◌, ◌≤◌, length};
ghost use Rattle.history.specs.State.{state_ok, walk_ok, Answers};

use super::headers;
use super::headers::Stop;
use config::range::{least, outside};
use config::sequence::SeqNum;

// The fewest words that hold a command of 64, and the most: numbers of a ring of that many commands
// stay within half a turn.
pub const MIN_WORDS: usize = 65;

pub const MAX_WORDS: usize = 32768;

#[derive(Clone, Copy)]
pub struct SendHistory {
    // C: the words of the lent slice, 65 to 32,768.
    pub size: usize,
    // The place of the oldest header, below `size`.
    pub head: usize,
    // Words in use, headers with them, at most `size`.
    pub used: usize,
    // How many commands are held.
    pub count: usize,
    // The number of the oldest command; the next number when none is held.
    pub oldest: SeqNum,
    // The place of the newest header; anything when no command is held.
    pub last: usize,
}

// The header of an entry: which entry, 0 the oldest, and the header's place. The end of all entries where
// the entry is their count.
#[derive(Clone, Copy)]
pub struct Mark {
    pub entry: usize,
    pub at: usize,
}

impl SendHistory {
    // The history's part of the state test; of the commands held, the newest `unsent` are not
    // written and take `unsent_words` words.
    pub fn state_ok(self, ring: &[u32], unsent: usize, unsent_words: usize) -> bool
        ensures { result ≡ state_ok self ring.now unsent unsent_words }
    {
        self.state_walk(ring, unsent, unsent_words, 0).is_some()
    }

    // The state test, which a state passes that has some answer: from its walk, the header `back`
    // before the unwritten ones, or the oldest where fewer are written.
    pub fn state_walk(
        self,
        ring: &[u32],
        unsent: usize,
        unsent_words: usize,
        back: usize,
    ) -> Option<Mark>
        ensures { Answers (state_ok self ring.now unsent unsent_words) self ring.now unsent back result }
    {
        if outside(MIN_WORDS, MAX_WORDS, self.size)
            || ring.len() != self.size
            || self.size <= self.head
            || self.size < self.used
            || self.count < unsent
        {
            return None;
        }
        walks(self, ring, unsent, unsent_words, back)
    }
}

// One walk over the headers, from the oldest on, with a stop before the last `back` written entries and
// one behind the written ones.
fn walks(
    h: SendHistory,
    ring: &[u32],
    unsent: usize,
    unsent_words: usize,
    back: usize,
) -> Option<Mark>
    requires { (h.head < length ring.now) × (length ring.now ≤ 32768) × (h.used ≤ length ring.now) × (unsent ≤ h.count) }
    ensures { Answers (walk_ok ring.now h.last unsent unsent_words h.count h.head h.oldest h.used) h ring.now unsent back result }
{
    let written = h.count - unsent;
    let again = least(back, written);
    let entry = written - again;
    let start = Stop {
        at: h.head,
        seq: h.oldest,
        prev: h.last,
        words: h.used,
    };
    let first = headers::walk(ring, start, entry)?;
    let second = headers::walk(ring, first, again)?;
    if second.words != unsent_words {
        return None;
    }
    let all = headers::walk(ring, second, unsent)?;
    if all.words != 0 || all.prev != h.last {
        return None;
    }
    Some(Mark {
        entry,
        at: first.at,
    })
}
