// Where a write walks from: the mark that the walk of the state test hands on, and the one after words
// were queued, for which no second walk over the headers is made.
ghost use Rattle.std.specs.Prelude.{◌≡◌, ◌≤◌};
ghost use Rattle.history.specs.Queue.{Fit, request};
ghost use Rattle.history.specs.State.{Answers};
ghost use Rattle.sender.specs.State.{valid_of};
ghost use Rattle.sender.specs.Requests.{written_count};
ghost use Rattle.writing.specs.Placing.{begins_of, mark_queued};

use config::sequence;
use config::sequence::SeqNum;
use history::history::Mark;
use history::queue::RetransmitQueue;
use sender::sender::Sender;

// The number that the oldest request asks for.
fn asked(queue: RetransmitQueue) -> SeqNum
    requires { Fit queue }
    ensures { result ≡ (request queue 0).seq }
{
    let head = queue.head;
    let req = queue.items[head];
    req.seq
}

// The fewest commands of a history that are worth a look at the request.
const WORTH: usize = 8;

// How far before the unwritten commands a write begins: `back`, or further where the oldest request that
// waits asks for an earlier command. A short history is walked again as fast.
fn begins(s: Sender, back: usize) -> usize
    requires { Fit s.queue }
    ensures { result ≡ begins_of s back }
{
    let history = s.history;
    let queue = s.queue;
    if queue.len == 0 {
        return back;
    }
    if history.count < WORTH {
        return back;
    }
    if history.count < s.unsent {
        return back;
    }
    let written = history.count - s.unsent;
    let k = sequence::distance(history.oldest, asked(queue)) as usize;
    if written <= k {
        return back;
    }
    let far = written - k;
    if far <= back {
        return back;
    }
    far
}

// The state test, and from its walk the header where a write begins that repeats the last `back` written
// commands, or the oldest where fewer are written.
pub fn test(s: Sender, ring: &[u32], back: usize) -> Option<Mark>
    ensures { Answers (valid_of s ring.now) s.history ring.now s.unsent (begins_of s back) result }
{
    if !s.queue.state_ok() {
        return None;
    }
    let mark = s
        .history
        .state_walk(ring, s.unsent, s.unsent_words, begins(s, back))?;
    if idle::idle::state_ok(s.idle) {
        Some(mark)
    } else {
        None
    }
}

// The mark after words were queued; before them it was `from`. The oldest commands may have left, and
// where the mark's is among them, the mark is the oldest that is held.
pub fn mark_queued(before: Sender, after: Sender, from: Mark) -> Mark
    requires { (before.unsent ≤ before.history.count) × (after.unsent ≤ after.history.count) × (written_count after ≤ written_count before) }
    ensures { result ≡ mark_queued before after from }
{
    let had = before.history;
    let held = after.history;
    let gone = (had.count - before.unsent) - (held.count - after.unsent);
    if from.entry < gone {
        return history::tested::oldest(held);
    }
    Mark {
        entry: from.entry - gone,
        at: from.at,
    }
}
