// The words of a sender.
ghost use Rattle.std.specs.Prelude.{◌≡◌, length};
ghost use Rattle.c_state.specs.Sender.{sender_holds, sender_of, history_in, queue_in, idle_in, idle_words, first_in, second_in, requests_in, both_in, request_words, figure_words, NarrowSender};

use super::pack::{four, held, pair, two, word};
use command::retransmit::RetransmitRequest;
use history::history::SendHistory;
use history::queue::RetransmitQueue;
use idle::idle::Idle;
use sender::sender::Sender;

// The places of the words; the requests' are the last.
const RING: usize = 0;

const NEWEST: usize = 1;

const SMALL: usize = 2;

const DUE: usize = 3;

const INTERVAL: usize = 4;

pub const REQUESTS: usize = 5;

// Whether the words are some sender's.
pub fn fits(words: &[u64]) -> bool
    requires { length words.now ≡ 13 }
    ensures { result ≡ sender_holds words.now }
{
    let small = four(words[SMALL]);
    let top = two(small.d);
    if 1 < top.high {
        return false;
    }
    held(top.high == 1, words[DUE], words[INTERVAL], small.c as u64)
}

// The history.
fn history_in(words: &[u64]) -> SendHistory
    requires { length words.now ≡ 13 }
    ensures { result ≡ history_in words.now }
{
    let ring = four(words[RING]);
    let newest = four(words[NEWEST]);
    SendHistory {
        size: newest.b as usize,
        head: ring.a as usize,
        used: ring.b as usize,
        count: ring.c as usize,
        oldest: ring.d,
        last: newest.a as usize,
    }
}

// The requests of a word.
fn first_in(w: u64) -> RetransmitRequest
    ensures { result ≡ first_in w }
{
    let both = four(w);
    RetransmitRequest {
        seq: both.a,
        count: both.b,
    }
}

fn second_in(w: u64) -> RetransmitRequest
    ensures { result ≡ second_in w }
{
    let both = four(w);
    RetransmitRequest {
        seq: both.c,
        count: both.d,
    }
}

// The requests, two to a word.
fn requests_in(words: &[u64]) -> [RetransmitRequest; 16]
    requires { length words.now ≡ 8 }
    ensures { result ≡ requests_in words.now }
{
    [
        first_in(words[0]),
        second_in(words[0]),
        first_in(words[1]),
        second_in(words[1]),
        first_in(words[2]),
        second_in(words[2]),
        first_in(words[3]),
        second_in(words[3]),
        first_in(words[4]),
        second_in(words[4]),
        first_in(words[5]),
        second_in(words[5]),
        first_in(words[6]),
        second_in(words[6]),
        first_in(words[7]),
        second_in(words[7]),
    ]
}

// The queue.
fn queue_in(words: &[u64]) -> RetransmitQueue
    requires { length words.now ≡ 13 }
    ensures { result ≡ queue_in words.now }
{
    let small = four(words[SMALL]);
    let top = two(small.d);
    RetransmitQueue {
        items: requests_in(&words[REQUESTS..]),
        head: small.a as usize,
        len: small.b as usize,
        size: top.low as usize,
    }
}

// The idle timer.
fn idle_in(on: bool, due: u64, step: u16, interval: u64) -> Option<Idle>
    ensures { result ≡ idle_in on due step interval }
{
    on.then_some(Idle {
        due,
        step,
        interval,
    })
}

// The sender of words that fit.
pub fn load(words: &[u64]) -> Sender
    requires { length words.now ≡ 13 }
    ensures { result ≡ sender_of words.now }
{
    let newest = four(words[NEWEST]);
    let small = four(words[SMALL]);
    let top = two(small.d);
    Sender {
        history: history_in(words),
        queue: queue_in(words),
        unsent: newest.c as usize,
        unsent_words: newest.d as usize,
        idle: idle_in(top.high == 1, words[DUE], small.c, words[INTERVAL]),
    }
}

// The figures of the idle timer, which are 0 where none runs: in words, the flag stands apart.
#[derive(Clone, Copy)]
struct IdleWords {
    on: bool,
    due: u64,
    step: u16,
    interval: u64,
}

fn idle_words(idle: Option<Idle>) -> IdleWords
    ensures { result ≡ idle_words idle }
{
    match idle {
        None => IdleWords {
            on: false,
            due: 0,
            step: 0,
            interval: 0,
        },
        Some(i) => IdleWords {
            on: true,
            due: i.due,
            step: i.step,
            interval: i.interval,
        },
    }
}

// The words of a sender before its requests.
pub fn figures(sender: Sender) -> [u64; 5]
    requires { NarrowSender sender }
    ensures { result ≡ figure_words sender }
{
    let history = sender.history;
    let queue = sender.queue;
    let idle = idle_words(sender.idle);
    [
        word(
            history.head as u16,
            history.used as u16,
            history.count as u16,
            history.oldest,
        ),
        word(
            history.last as u16,
            history.size as u16,
            sender.unsent as u16,
            sender.unsent_words as u16,
        ),
        word(
            queue.head as u16,
            queue.len as u16,
            idle.step,
            pair(queue.size as u8, idle.on as u8),
        ),
        idle.due,
        idle.interval,
    ]
}

// The word of two requests.
fn both(first: RetransmitRequest, second: RetransmitRequest) -> u64
    ensures { result ≡ both_in first second }
{
    word(first.seq, first.count, second.seq, second.count)
}

// The words of requests.
pub fn requests(items: [RetransmitRequest; 16]) -> [u64; 8]
    ensures { result ≡ request_words 8 items }
{
    [
        both(items[0], items[1]),
        both(items[2], items[3]),
        both(items[4], items[5]),
        both(items[6], items[7]),
        both(items[8], items[9]),
        both(items[10], items[11]),
        both(items[12], items[13]),
        both(items[14], items[15]),
    ]
}
