// What a sender calls once its state has passed the state test, or a start its sizes.
ghost use Rattle.std.specs.Prelude.{◌≡◌, ◌+◌, ◌-◌, ◌<◌, ◌≤◌, true, length};
ghost use Rattle.config.specs.Sequence.{after};
ghost use Rattle.history.specs.State.{Good, Marks, oldest_mark, nearest_mark, cleared};
ghost use Rattle.history.specs.Headers.{number_at, length_at, next_at, header_at, words_from};
ghost use Rattle.history.specs.Push.{pop_one, pushed, appended};
ghost use Rattle.history.specs.inner.Room.{Freed};
ghost use Rattle.history.specs.Queue.{Fit, none_wait, waiting, asks, oldest_of, push_answer, set_front_of, pop_of};
ghost use Rattle.packet.specs.Write.{valid_of, written_of};
ghost use Rattle.history.specs.Written.{entry_packet};

use super::headers::Stop;
use super::history::{Mark, SendHistory};
use super::queue::{Ignored, Popped, Pushed, RetransmitQueue};
use super::{headers, ring};
use command::retransmit::RetransmitRequest;
use config::sequence;
use config::sequence::SeqNum;
use packet::writer::{PayloadWriter, Wrote};

// A start and a reset: no command held, the next number 0, and every word of the lent slice 0.
pub fn clear(size: usize, ring: &mut [u32]) -> SendHistory
    requires { (65 ≤ size) × (size ≤ 32768) × (length ring.old ≡ size) }
    ensures { (result, ring.new) ≡ cleared size ring.old }
{
    ring.fill(0);
    SendHistory {
        size,
        head: 0,
        used: 0,
        count: 0,
        oldest: 0,
        last: 0,
    }
}

// The count of words of the entry whose header stands at `at`.
pub fn pl(ring: &[u32], at: usize) -> usize
    requires { at < length ring.now }
    ensures { result ≡ length_at ring.now at }
{
    (ring[at] % 256) as usize
}

// The number of the entry whose header stands at `at`.
fn seq(ring: &[u32], at: usize) -> SeqNum
    requires { at < length ring.now }
    ensures { result ≡ number_at ring.now at }
{
    (ring[at] / 0x1_0000) as u16
}

// The place of the header after the one at `at`.
pub fn next_index(ring: &[u32], at: usize) -> usize
    requires { (at < length ring.now) × (65 ≤ length ring.now) × (length ring.now ≤ 32768) × (length_at ring.now at ≤ 64) }
    ensures { (result ≡ next_at ring.now at) × (result < length ring.now) }
{
    ring::slot(ring.len(), at, 1 + pl(ring, at))
}

// The oldest entry's header.
pub fn oldest(h: SendHistory) -> Mark
    ensures { result ≡ oldest_mark h }
{
    Mark {
        entry: 0,
        at: h.head,
    }
}

// The mark, or the oldest entry's header where entry `k` is before the mark.
fn nearest(h: SendHistory, from: Mark, k: usize) -> Mark
    ensures { result ≡ nearest_mark h from k }
{
    if k < from.entry { oldest(h) } else { from }
}

// The place of the header of entry `k`, 0 the oldest; of the end of all entries where `k` is their count.
// It is walked to from the mark, or from the oldest where the mark is behind it.
pub fn index_of(h: SendHistory, ring: &[u32], from: Mark, k: usize) -> usize
    requires { Good h ring.now × (k ≤ h.count) × Marks h ring.now from }
    ensures { (result ≡ header_at k ring.now h.head) × (result < length ring.now) }
{
    let mark = nearest(h, from, k);
    let start = Stop {
        at: mark.at,
        seq: sequence::add(h.oldest, mark.entry as u16),
        prev: h.last,
        words: h.used,
    };
    let Some(out) = headers::walk(ring, start, k - mark.entry) else {
        unreachable!()
    };
    out.at
}

// The oldest entry leaves.
#[tactic(auto, using(crate::proofs::Room::good_first), unfolding(crate::specs::Push::pop_one))]
fn pop_oldest(h: SendHistory, ring: &[u32]) -> SendHistory
    requires { Good h ring.now × (0 < h.count) }
    ensures { result ≡ pop_one ring.now h }
{
    let n = 1 + pl(ring, h.head);
    SendHistory {
        head: ring::slot(h.size, h.head, n),
        used: h.used - n,
        count: h.count - 1,
        oldest: sequence::add(h.oldest, 1),
        ..h
    }
}

// Oldest entries leave while fewer than `need` words are free and more than `stay` entries are held.
fn make_room(h: SendHistory, ring: &[u32], need: usize, stay: usize) -> SendHistory
    requires { Good h ring.now × (stay ≤ h.count) × (need + words_from stay ring.now (header_at (h.count - stay) ring.now h.head) ≤ h.size) }
    ensures { Freed (h.count - stay) need h ring.now result }
{
    let mut g = h;
    // A `while`: entries leave by the words that are free, not by their count.
    while stay < g.count && g.size - g.used < need {
        g = pop_oldest(g, ring);
    }
    g
}

// The number that the next command gets.
fn next_seq(h: SendHistory) -> SeqNum
    ensures { result ≡ after h.oldest h.count }
{
    sequence::add(h.oldest, (h.count % 0x1_0000) as u16)
}

// Adds one entry behind the newest, after as many of the oldest have left as its header and words
// need.
#[tactic(auto, unfolding(crate::specs::Push::pushed, crate::specs::Push::grown, crate::specs::Ring::ring_stored))]
pub fn push(h: SendHistory, ring: &mut [u32], words: &[u32]) -> SendHistory
    requires { Good h ring.old × (length words.now ≤ 64) }
    ensures { (result, ring.new) ≡ pushed h ring.old words.now }
{
    let need = 1 + words.len();
    let g = make_room(h, &ring[..], need, 0);
    let at = ring::slot(g.size, g.head, g.used);
    let number = next_seq(g);
    ring[at] = u32::from(number) * 0x1_0000 + (words.len() as u32);
    let next = ring::slot(g.size, at, 1);
    ring::put(ring, next, words);
    SendHistory {
        used: g.used + need,
        count: g.count + 1,
        last: at,
        ..g
    }
}

// Words join the newest entry, after as many of the oldest have left as they need.
#[tactic(auto, using(crate::proofs::Room::good_last), unfolding(crate::specs::Push::appended, crate::specs::Push::longer))]
pub fn append_to_last(h: SendHistory, ring: &mut [u32], words: &[u32]) -> SendHistory
    requires { Good h ring.old × (0 < h.count) × (length_at ring.old h.last + length words.now ≤ 64) }
    ensures { (result, ring.new) ≡ appended h ring.old words.now }
{
    let n = words.len();
    let last = h.last;
    let header = ring[last];
    let g = make_room(h, &ring[..], n, 1);
    let end = ring::slot(g.size, g.head, g.used);
    ring::put(ring, end, words);
    ring[last] = header + (n as u32);
    SendHistory {
        used: g.used + n,
        ..g
    }
}

// Writes the entry whose header stands at `at` as a data command with its own number. Its words go
// from the lent history into the payload, in two runs where they pass the end.
pub fn write_entry(p: PayloadWriter, buf: &mut [u8], ring: &[u32], at: usize) -> Wrote
    requires { (valid_of p (length buf.old) ≡ true) × (at < length ring.now) × (65 ≤ length ring.now) × (length ring.now ≤ 32768) × (length_at ring.now at ≤ 64) }
    ensures { (result, buf.new) ≡ written_of p buf.old (entry_packet ring.now at) }
{
    let n = pl(ring, at);
    let [csd1, csd2] = seq(ring, at).to_be_bytes();
    let start = ring::slot(ring.len(), at, 1);
    let run = ring::run_end(ring.len(), start, n);
    let end = start + run;
    let rest = n - run;
    packet::tested::command_runs(p, buf, 0xFF, csd1, csd2, &ring[start..end], &ring[0..rest])
}

// A start and a reset: no request waits.
pub fn clear_requests(size: usize) -> RetransmitQueue
    requires { (1 ≤ size) × (size ≤ 16) }
    ensures { result ≡ none_wait size }
{
    RetransmitQueue {
        items: [RetransmitRequest { seq: 0, count: 0 }; 16],
        head: 0,
        len: 0,
        size,
    }
}

// Whether a request for `seq` waits.
fn pending(q: RetransmitQueue, seq: SeqNum) -> bool
    requires { Fit q }
    ensures { result ≡ asks (waiting q) seq }
{
    for i in 0..q.len {
        let at = ring::slot(q.size, q.head, i);
        if q.items[at].seq == seq {
            return true;
        }
    }
    false
}

// Adds a request behind the newest, unless one with its number waits or no place is free.
#[tactic(auto, unfolding(crate::specs::Queue::push_answer))]
pub fn push_request(q: RetransmitQueue, req: RetransmitRequest) -> Pushed
    requires { Fit q }
    ensures { result ≡ push_answer q req }
{
    if pending(q, req.seq) {
        return Pushed {
            queue: q,
            answer: Err(Ignored::Pending),
        };
    }
    if q.size <= q.len {
        return Pushed {
            queue: q,
            answer: Err(Ignored::Full),
        };
    }
    let at = ring::slot(q.size, q.head, q.len);
    let mut queue = RetransmitQueue {
        len: q.len + 1,
        ..q
    };
    queue.items[at] = req;
    Pushed {
        queue,
        answer: Ok(()),
    }
}

// The oldest request.
#[tactic(auto, unfolding(crate::specs::Queue::oldest_of, crate::specs::Queue::requests, crate::specs::Queue::request, crate::specs::Ring::slot_of))]
fn front(q: RetransmitQueue) -> Option<RetransmitRequest>
    requires { Fit q }
    ensures { result ≡ oldest_of (waiting q) }
{
    if q.len == 0 {
        return None;
    }
    Some(q.items[q.head])
}

// Puts a request in the oldest one's place; changes nothing where none waits.
#[tactic(auto, unfolding(crate::specs::Queue::set_front_of))]
pub fn set_front(q: RetransmitQueue, req: RetransmitRequest) -> RetransmitQueue
    requires { Fit q }
    ensures { result ≡ set_front_of q req }
{
    let mut next = q;
    if 0 < q.len {
        next.items[q.head] = req;
    }
    next
}

// Removes the oldest request.
#[tactic(auto, unfolding(crate::specs::Queue::pop_of))]
pub fn pop(q: RetransmitQueue) -> Popped
    requires { Fit q }
    ensures { result ≡ pop_of q }
{
    let oldest = front(q);
    if q.len == 0 {
        return Popped { queue: q, oldest };
    }
    let queue = RetransmitQueue {
        head: ring::slot(q.size, q.head, 1),
        len: q.len - 1,
        ..q
    };
    Popped { queue, oldest }
}
