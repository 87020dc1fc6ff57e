// The Retransmit Requests that wait to be served.
ghost use Rattle.std.specs.Prelude.{◌≡◌};
ghost use Rattle.history.specs.Queue.{queue_ok};

use command::retransmit::RetransmitRequest;
use config::range::outside;

// The places of a queue.
pub const PLACES: usize = 16;

//   items   | . | r | r | r | . |     places 0 to `size` - 1, and round the end
//                 |     len
//                head: the oldest
#[derive(Clone, Copy)]
pub struct RetransmitQueue {
    pub items: [RetransmitRequest; 16],
    // The place of the oldest request, below `size`.
    pub head: usize,
    // How many requests wait, at most `size`.
    pub len: usize,
    // Q: the places in use, 1 to 16.
    pub size: usize,
}

// Why a request is not queued.
#[derive(Clone, Copy)]
pub enum Ignored {
    // One with the same number waits already.
    Pending,
    // Every place is taken.
    Full,
}

#[derive(Clone, Copy)]
pub struct Pushed {
    pub queue: RetransmitQueue,
    pub answer: Result<(), Ignored>,
}

#[derive(Clone, Copy)]
pub struct Popped {
    pub queue: RetransmitQueue,
    pub oldest: Option<RetransmitRequest>,
}

impl RetransmitQueue {
    // The request queue's part of the state test.
    pub fn state_ok(self) -> bool
        ensures { result ≡ queue_ok self }
    {
        !outside(1, PLACES, self.size) && self.head < self.size && self.len <= self.size
    }
}
