// The window and its operations. Each takes the window by value and hands it back with its answer.
ghost use Rattle.std.specs.Prelude.{◌≡◌};
ghost use Rattle.window.specs.Marking.{in_range};
ghost use Rattle.window.specs.Answers.{start_answer, new_answer, reset_answer, class_answer, heard as heard_of, accept_answer, processed_answer, missing_answer, request_answer, mark_all_answer, mark_answer};

use super::set::Bits;
use super::{arrival, set, tested};
use config::refusal::Refusal;
use config::sequence::SeqNum;
use config::{range, sequence};

// The highest number of a fresh window, position -1: 0 is the next.
const FRESH: SeqNum = 0xFFFF;

//     size behind                  1 behind   highest
//     | bit size - 1 | .. | bit 1 | bit 0 |      processed
//
// A bit is set where the number was processed. Whatever is further behind counts as processed.
#[derive(Clone, Copy)]
pub struct ReceiveWindow {
    // How many numbers behind the highest are kept, 1 to 128.
    pub size: u32,
    // The highest number that was processed.
    pub highest: SeqNum,
    // Bit k: the number k + 1 behind the highest was processed. No bit at `size` or above is set.
    pub bits: Bits,
}

// `count` numbers from `first` on, going up and round.
#[derive(Clone, Copy)]
pub struct SeqRange {
    // The oldest number.
    pub first: SeqNum,
    // How many numbers there are.
    pub count: u16,
}

#[derive(Clone, Copy)]
pub enum Class {
    // Ahead of the highest, with this many numbers skipped in between.
    New(u16),
    // In the window, and not processed before.
    Late,
    // Processed before, or too far behind to tell.
    Duplicate,
}

// What the arrival of a number leaves and answers.
#[derive(Clone, Copy)]
pub struct Arrival {
    pub window: ReceiveWindow,
    pub class: Class,
    // From the oldest to the newest number that left the window unprocessed.
    pub lost: Option<SeqRange>,
}

// What `tested::mark_range` leaves and answers.
#[derive(Clone, Copy)]
pub struct Marked {
    pub window: ReceiveWindow,
    // From the oldest to the newest number that it marked.
    pub span: Option<SeqRange>,
}

// What a number was that was taken.
#[derive(Clone, Copy)]
pub struct Taken {
    pub class: Class,
    // From the oldest to the newest number that left the window unprocessed.
    pub lost: Option<SeqRange>,
}

// The window after a call, as it was where the call was refused, and what the call answers.
#[derive(Clone, Copy)]
pub struct WindowAnswer<T> {
    pub window: ReceiveWindow,
    pub answer: Result<T, Refusal>,
}

// The answer to a number that was taken.
fn heard(taken: Arrival) -> WindowAnswer<Taken>
    ensures { result ≡ heard_of taken }
{
    let window = taken.window;
    let class = taken.class;
    let lost = taken.lost;
    WindowAnswer {
        window,
        answer: Ok(Taken { class, lost }),
    }
}

impl SeqRange {
    // Whether `seq` is one of the numbers.
    pub fn contains(self, seq: SeqNum) -> bool
        ensures { result ≡ in_range self seq }
    {
        let first = self.first;
        let count = self.count;
        sequence::distance(first, seq) < count
    }
}

impl ReceiveWindow {
    // The highest position is -1, and all before it are processed.
    pub fn new(size: u32) -> Result<ReceiveWindow, Refusal>
        ensures { result ≡ new_answer size }
    {
        ReceiveWindow::starting_at(size, FRESH)
    }

    // The highest and all before it processed.
    pub fn starting_at(size: u32, highest: SeqNum) -> Result<ReceiveWindow, Refusal>
        ensures { result ≡ start_answer size highest }
    {
        if range::outside(1, set::MAX_WINDOW as usize, size as usize) {
            return Err(Refusal::SizeNotAllowed);
        }
        Ok(tested::starting_at(size, highest))
    }

    // Back to the fresh window of the same size.
    pub fn reset(self) -> WindowAnswer<()>
        ensures { result ≡ reset_answer self }
    {
        if tested::is_valid(self) {
            let size = self.size;
            let fresh = tested::starting_at(size, FRESH);
            return WindowAnswer {
                window: fresh,
                answer: Ok(()),
            };
        }
        WindowAnswer {
            window: self,
            answer: Err(Refusal::InvalidState),
        }
    }

    // What a number is to the window, which stays as it is.
    pub fn classify(self, seq: SeqNum) -> WindowAnswer<Class>
        ensures { result ≡ class_answer self seq }
    {
        if tested::is_valid(self) {
            return WindowAnswer {
                window: self,
                answer: Ok(arrival::classify(self, seq)),
            };
        }
        WindowAnswer {
            window: self,
            answer: Err(Refusal::InvalidState),
        }
    }

    // A number arrives: it is processed now, unless it is a Duplicate.
    pub fn accept(self, seq: SeqNum) -> WindowAnswer<Taken>
        ensures { result ≡ accept_answer self seq }
    {
        if tested::is_valid(self) {
            if arrival::in_order(self, seq) {
                return heard(arrival::accept_next(self, seq));
            }
            if arrival::is_ahead(self, seq) {
                let lost = arrival::lost_to(self, seq);
                return WindowAnswer {
                    window: arrival::moved_to(self, seq),
                    answer: Ok(Taken {
                        class: arrival::class_ahead(self, seq),
                        lost,
                    }),
                };
            }
            return heard(arrival::accept_behind(self, seq));
        }
        WindowAnswer {
            window: self,
            answer: Err(Refusal::InvalidState),
        }
    }

    // Whether the number is the highest, or one of the window's numbers that was processed.
    pub fn is_processed(self, seq: SeqNum) -> WindowAnswer<bool>
        ensures { result ≡ processed_answer self seq }
    {
        if tested::is_valid(self) {
            return WindowAnswer {
                window: self,
                answer: Ok(tested::is_processed(self, seq)),
            };
        }
        WindowAnswer {
            window: self,
            answer: Err(Refusal::InvalidState),
        }
    }

    // From the oldest to the newest missing number.
    pub fn missing(self) -> WindowAnswer<Option<SeqRange>>
        ensures { result ≡ missing_answer self }
    {
        if tested::is_valid(self) {
            return WindowAnswer {
                window: self,
                answer: Ok(tested::missing(self)),
            };
        }
        WindowAnswer {
            window: self,
            answer: Err(Refusal::InvalidState),
        }
    }

    // What a Retransmit Request asks for: from the oldest missing number to just before the highest.
    pub fn request(self) -> WindowAnswer<Option<SeqRange>>
        ensures { result ≡ request_answer self }
    {
        if tested::is_valid(self) {
            return WindowAnswer {
                window: self,
                answer: Ok(tested::request(self)),
            };
        }
        WindowAnswer {
            window: self,
            answer: Err(Refusal::InvalidState),
        }
    }

    // All numbers of the window are processed now.
    pub fn mark_all(self) -> WindowAnswer<()>
        ensures { result ≡ mark_all_answer self }
    {
        if tested::is_valid(self) {
            return WindowAnswer {
                window: tested::mark_all(self),
                answer: Ok(()),
            };
        }
        WindowAnswer {
            window: self,
            answer: Err(Refusal::InvalidState),
        }
    }

    // The missing numbers that are in the range are processed now; the answer spans them.
    pub fn mark_range(self, range: SeqRange) -> WindowAnswer<Option<SeqRange>>
        ensures { result ≡ mark_answer self range }
    {
        if tested::is_valid(self) {
            let marked = tested::mark_range(self, range);
            let window = marked.window;
            let span = marked.span;
            return WindowAnswer {
                window,
                answer: Ok(span),
            };
        }
        WindowAnswer {
            window: self,
            answer: Err(Refusal::InvalidState),
        }
    }
}
