// The sender and its calls. Each takes the sender by value and hands it back with its answer; the
// history's words lie in the lent slice `ring`.
ghost use Rattle.std.specs.Prelude.{◌≡◌};
ghost use Rattle.sender.specs.Answers.{new_answer, reset_answer, send_answer, request_answer, deadline_answer, wants_answer, next_answer};

use super::tested;
use command::retransmit::{RetransmitError, RetransmitRequest};
use config::range::outside;
use config::refusal::Refusal;
use config::sequence::SeqNum;
use config::settings::StreamConfig;
use history::history::{MAX_WORDS, MIN_WORDS, SendHistory};
use history::queue::{Ignored, PLACES, RetransmitQueue};
use idle::idle::Idle;

//   history:  | written .. | unsent .. |      newest
#[derive(Clone, Copy)]
pub struct Sender {
    pub history: SendHistory,
    pub queue: RetransmitQueue,
    // How many of the newest commands are not written yet, at most all.
    pub unsent: usize,
    // The words that these take in the history, headers with them.
    pub unsent_words: usize,
    pub idle: Option<Idle>,
}

// The sender after a call, as it was where the call was refused, and what the call answers.
#[derive(Clone, Copy)]
pub struct SenderAnswer<T> {
    pub sender: Sender,
    pub answer: Result<T, Refusal>,
}

#[derive(Clone, Copy)]
pub enum RequestOutcome {
    Queued,
    Ignored(Ignored),
    // The number is not in the written history: the caller writes this error.
    Error(RetransmitError),
    // Retransmits are off.
    NotSupported,
}

impl Sender {
    // A fresh sender over a lent history of `words` words, which is zeroed, with a request queue of
    // `places` places; 12 for sizes that are not taken.
    pub fn new(words: usize, places: usize, ring: &mut [u32]) -> SenderAnswer<()>
        ensures { (result, ring.new) ≡ new_answer words places ring.old }
    {
        if outside(MIN_WORDS, MAX_WORDS, words) {
            return tested::not_started();
        }
        if ring.len() != words {
            return tested::not_started();
        }
        if outside(1, PLACES, places) {
            return tested::not_started();
        }
        SenderAnswer {
            sender: tested::start(words, places, ring),
            answer: Ok(()),
        }
    }

    // Back to the fresh sender of the same sizes; the lent history is zeroed.
    pub fn reset(self, ring: &mut [u32]) -> SenderAnswer<()>
        ensures { (result, ring.new) ≡ reset_answer self ring.old }
    {
        if tested::is_valid(self, &ring[..]) {
            return SenderAnswer {
                sender: tested::reset(self, ring),
                answer: Ok(()),
            };
        }
        SenderAnswer {
            sender: self,
            answer: Err(Refusal::InvalidState),
        }
    }

    // Queues whole messages; 5, 3 and 6 for words that are not queued.
    pub fn send_ump(self, cfg: StreamConfig, ring: &mut [u32], words: &[u32]) -> SenderAnswer<()>
        ensures { (result, ring.new) ≡ send_answer self cfg ring.old words.now }
    {
        match cfg.check() {
            Err(why) => SenderAnswer {
                sender: self,
                answer: Err(why),
            },
            Ok(()) => {
                if tested::is_valid(self, &ring[..]) {
                    return tested::send_ump(self, cfg, ring, words);
                }
                SenderAnswer {
                    sender: self,
                    answer: Err(Refusal::InvalidState),
                }
            }
        }
    }

    // A Retransmit Request arrives.
    pub fn on_retransmit_request(
        self,
        cfg: StreamConfig,
        ring: &[u32],
        req: RetransmitRequest,
    ) -> SenderAnswer<RequestOutcome>
        ensures { result ≡ request_answer self cfg ring.now req }
    {
        match cfg.check() {
            Err(why) => SenderAnswer {
                sender: self,
                answer: Err(why),
            },
            Ok(()) => {
                if tested::is_valid(self, ring) {
                    return tested::on_retransmit_request(self, cfg, req);
                }
                SenderAnswer {
                    sender: self,
                    answer: Err(Refusal::InvalidState),
                }
            }
        }
    }

    // When the next idle command is due.
    pub fn next_deadline(self, ring: &[u32]) -> Result<Option<u64>, Refusal>
        ensures { result ≡ deadline_answer self ring.now }
    {
        if tested::is_valid(self, ring) {
            return tested::next_deadline(self);
        }
        Err(Refusal::InvalidState)
    }

    // Whether a write at this time has something to write.
    pub fn wants_write(self, ring: &[u32], time: u64) -> Result<bool, Refusal>
        ensures { result ≡ wants_answer self ring.now time }
    {
        if tested::is_valid(self, ring) {
            return Ok(tested::wants_write(self, time));
        }
        Err(Refusal::InvalidState)
    }

    // The number that the next written command gets.
    pub fn next_seq(self, ring: &[u32]) -> Result<SeqNum, Refusal>
        ensures { result ≡ next_answer self ring.now }
    {
        if tested::is_valid(self, ring) {
            return Ok(tested::next_seq(self));
        }
        Err(Refusal::InvalidState)
    }
}
