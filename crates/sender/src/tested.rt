// The calls over settings and a state that were tested: `is_valid` is the test of the state, and the
// others require what it says.
ghost use Rattle.std.specs.Prelude.{◌≡◌, true, false, ◌+◌, ◌≤◌, ◌<◌, length};
ghost use Rattle.config.specs.Settings.{check_of};
ghost use Rattle.config.specs.Sequence.{turn};
ghost use Rattle.command.specs.Messages.{whole_of};
ghost use Rattle.fronts.specs.Commands.{commands_of, above};
ghost use Rattle.history.specs.State.{Good};
ghost use Rattle.history.specs.Headers.{length_at};
ghost use Rattle.history.specs.Queue.{Fit};
ghost use Rattle.sender.specs.State.{valid_of, start_of, reset_of};
ghost use Rattle.sender.specs.Queueing.{room_of, joined_to, pushed_all, words_check, placed_of, sent_of};
ghost use Rattle.sender.specs.Requests.{outcome_of, requested_of, due_at, deadline_of, wants_of, next_of};
ghost use Rattle.sender.specs.Answers.{not_started};

use super::sender::{RequestOutcome, Sender, SenderAnswer};
use command::message::whole_messages;
use command::retransmit::{NOT_IN_BUFFER, RetransmitError, RetransmitRequest};
use config::refusal::Refusal;
use config::sequence;
use config::sequence::SeqNum;
use config::settings::StreamConfig;
use history::history::SendHistory;
use history::queue::{Ignored, RetransmitQueue};
use idle::idle::Idle;

// The state test: the history's part, the request queue's, and the idle step.
#[tactic(auto, unfolding(crate::specs::State::valid_of))]
pub fn is_valid(s: Sender, ring: &[u32]) -> bool
    ensures { result ≡ valid_of s ring.now }
{
    s.history.state_ok(ring, s.unsent, s.unsent_words)
        && s.queue.state_ok()
        && idle::idle::state_ok(s.idle)
}

// A sender of sizes 0, which the state test refuses.
pub fn not_started() -> SenderAnswer<()>
    ensures { result ≡ not_started }
{
    SenderAnswer {
        sender: Sender {
            history: SendHistory {
                size: 0,
                head: 0,
                used: 0,
                count: 0,
                oldest: 0,
                last: 0,
            },
            queue: RetransmitQueue {
                items: [RetransmitRequest { seq: 0, count: 0 }; 16],
                head: 0,
                len: 0,
                size: 0,
            },
            unsent: 0,
            unsent_words: 0,
            idle: None,
        },
        answer: Err(Refusal::SizeNotAllowed),
    }
}

// A fresh sender; the lent history is zeroed.
pub fn start(words: usize, places: usize, ring: &mut [u32]) -> Sender
    requires { (65 ≤ words) × (words ≤ 32768) × (length ring.old ≡ words) × (1 ≤ places) × (places ≤ 16) }
    ensures { (result, ring.new) ≡ start_of words places ring.old }
{
    Sender {
        history: history::tested::clear(words, ring),
        queue: history::tested::clear_requests(places),
        unsent: 0,
        unsent_words: 0,
        idle: None,
    }
}

pub fn reset(s: Sender, ring: &mut [u32]) -> Sender
    requires { valid_of s ring.old ≡ true }
    ensures { (result, ring.new) ≡ reset_of s ring.old }
{
    start(s.history.size, s.queue.size, ring)
}

// 5 not whole messages; 3 a message above the set size.
fn check(words: &[u32], max: usize) -> Result<(), Refusal>
    ensures { result ≡ words_check max words.now }
{
    if whole_messages(words) {
        if fronts::tested::fit(words, max) {
            return Ok(());
        }
        return Err(Refusal::TooLarge);
    }
    Err(Refusal::InvalidUmpData)
}

// The words that the newest unwritten command still takes; none when nothing is unwritten.
fn room(s: Sender, ring: &[u32], max: usize) -> usize
    requires { valid_of s ring.now ≡ true }
    ensures { result ≡ room_of s ring.now max }
{
    if s.unsent == 0 {
        return 0;
    }
    let n = history::tested::pl(ring, s.history.last);
    if max < n {
        return 0;
    }
    max - n
}

// Words join the newest command.
fn join(h: SendHistory, ring: &mut [u32], words: &[u32]) -> SendHistory
    requires { Good h ring.old × (0 < length words.now → (0 < h.count) × (length_at ring.old h.last + length words.now ≤ 64)) }
    ensures { (result, ring.new) ≡ joined_to h ring.old words.now }
{
    if words.len() == 0 {
        return h;
    }
    history::tested::append_to_last(h, ring, words)
}

// The words open further commands of at most `max` words.
fn push_all(h: SendHistory, ring: &mut [u32], max: usize, words: &[u32]) -> SendHistory
    requires { Good h ring.old × (h.oldest < turn) × (max ≤ 64) × (whole_of words.now ≡ true) × (above max words.now ≡ false) }
    ensures { (result, ring.new) ≡ pushed_all h ring.old (commands_of max words.now) }
{
    let mut g = h;
    let mut rest = words;
    // A `while`: the words themselves say where the next front begins.
    while !rest.is_empty() {
        let n = fronts::tested::front_words(rest, max);
        g = history::tested::push(g, ring, &rest[..n]);
        rest = &rest[n..];
    }
    g
}

// Queues messages that passed `check`; 6 when words and new headers exceed the history less what is
// unwritten.
fn queue_words(s: Sender, ring: &mut [u32], max: usize, words: &[u32]) -> SenderAnswer<()>
    requires { (valid_of s ring.old ≡ true) × (max ≤ 64) × (words_check max words.now ≡ Ok tt) }
    ensures { (result, ring.new) ≡ placed_of s ring.old max words.now }
{
    let split = fronts::tested::front_words(words, room(s, &ring[..], max));
    let commands = fronts::tested::commands(&words[split..], max);
    let need = words.len() + commands;
    if s.history.size - s.unsent_words < need {
        return SenderAnswer {
            sender: s,
            answer: Err(Refusal::Full),
        };
    }
    let joined = join(s.history, ring, &words[..split]);
    let all = push_all(joined, ring, max, &words[split..]);
    SenderAnswer {
        sender: Sender {
            history: all,
            unsent: s.unsent + commands,
            unsent_words: s.unsent_words + need,
            ..s
        },
        answer: Ok(()),
    }
}

pub fn send_ump(s: Sender, cfg: StreamConfig, ring: &mut [u32], words: &[u32]) -> SenderAnswer<()>
    requires { (valid_of s ring.old ≡ true) × (check_of cfg ≡ Ok tt) }
    ensures { (result, ring.new) ≡ sent_of s ring.old cfg.max_command_words words.now }
{
    if words.len() == 0 {
        return SenderAnswer {
            sender: s,
            answer: Ok(()),
        };
    }
    let max = cfg.max_command_words;
    match check(words, max) {
        Err(why) => SenderAnswer {
            sender: s,
            answer: Err(why),
        },
        Ok(()) => queue_words(s, ring, max, words),
    }
}

fn outcome(answer: Result<(), Ignored>) -> Result<RequestOutcome, Refusal>
    ensures { result ≡ outcome_of answer }
{
    match answer {
        Ok(()) => Ok(RequestOutcome::Queued),
        Err(why) => Ok(RequestOutcome::Ignored(why)),
    }
}

// A request for a written command waits behind the others; any other is answered at once.
pub fn on_retransmit_request(
    s: Sender,
    cfg: StreamConfig,
    req: RetransmitRequest,
) -> SenderAnswer<RequestOutcome>
    requires { (s.unsent ≤ s.history.count) × Fit s.queue }
    ensures { result ≡ requested_of s cfg req }
{
    if cfg.retransmit {
        let written = s.history.count - s.unsent;
        let k = sequence::distance(s.history.oldest, req.seq);
        if written <= (k as usize) {
            return SenderAnswer {
                sender: s,
                answer: Ok(RequestOutcome::Error(RetransmitError {
                    reason: NOT_IN_BUFFER,
                    seq: s.history.oldest,
                })),
            };
        }
        let pushed = history::tested::push_request(s.queue, req);
        return SenderAnswer {
            sender: Sender {
                queue: pushed.queue,
                ..s
            },
            answer: outcome(pushed.answer),
        };
    }
    SenderAnswer {
        sender: s,
        answer: Ok(RequestOutcome::NotSupported),
    }
}

// No idle command is queued while a command is unwritten.
pub fn next_deadline(s: Sender) -> Result<Option<u64>, Refusal>
    ensures { result ≡ deadline_of s }
{
    if s.unsent == 0 {
        let idle = s.idle;
        return due_at(idle);
    }
    Ok(None)
}

fn due_at(idle: Option<Idle>) -> Result<Option<u64>, Refusal>
    ensures { result ≡ due_at idle }
{
    match idle {
        None => Ok(None),
        Some(i) => Ok(Some(i.due)),
    }
}

// An unwritten command, a request that waits, or an idle command that is due.
#[tactic(auto, unfolding(crate::specs::Requests::wants_of))]
pub fn wants_write(s: Sender, time: u64) -> bool
    ensures { result ≡ wants_of s time }
{
    0 < s.unsent || 0 < s.queue.len || idle::idle::is_due(s.idle, time)
}

// The number of the oldest unwritten command, or of the next one.
pub fn next_seq(s: Sender) -> SeqNum
    requires { s.unsent ≤ s.history.count }
    ensures { result ≡ next_of s }
{
    let written = s.history.count - s.unsent;
    sequence::add(s.history.oldest, (written % 0x1_0000) as u16)
}
