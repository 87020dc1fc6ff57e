// The write over settings, a state and a payload that were tested.
//
//   payload:  | what it holds | retransmits | repeats | new commands |
//
// Waiting requests are served first; where one does not fit whole, the write ends. Else a due idle
// command is queued, and up to R of the last written commands are repeated before the new ones.
ghost use Rattle.std.specs.Prelude.{◌≡◌, true, false, cond, ◌||◌, ◌+◌, ◌≤◌, ◌<◌, length, eqb, ltb};
ghost use Rattle.config.specs.Settings.{check_of};
ghost use Rattle.packet.specs.Write.{valid_of as payload_valid};
ghost use Rattle.history.specs.Headers.{header_at};
ghost use Rattle.history.specs.State.{Good, Marks};
ghost use Rattle.history.specs.Queue.{Fit};
ghost use Rattle.idle.specs.Schedule.{idle_start};
ghost use Rattle.rows.specs.Rows.{row_of, leaving, packets_from};
ghost use Rattle.sender.specs.State.{valid_of};
ghost use Rattle.sender.specs.Requests.{not_written, with_queue};
ghost use Rattle.writing.specs.Writing.{reach_of, answer_to, rest_of, served_by, served_of, idled_of, mark_after, Again, taken_off, new_row, new_of, written_by};

use super::writing::{Written, Wrote};
use command::retransmit::{NOT_IN_BUFFER, RetransmitError, RetransmitRequest};
use config::range::least;
use config::refusal::Refusal;
use config::sequence;
use config::settings::StreamConfig;
use history::history::{Mark, SendHistory};
use history::queue::RetransmitQueue;
use packet::writer::PayloadWriter;
use rows::rows::{Repeated, Row, reach};
use sender::sender::Sender;

// Answers a request with its commands, or with the error if its number left while it waited.
fn answer(
    s: Sender,
    req: RetransmitRequest,
    p: PayloadWriter,
    buf: &mut [u8],
    ring: &[u32],
    from: Mark,
) -> Row
    requires { (valid_of s ring.now ≡ true) × (payload_valid p (length buf.old) ≡ true) × Marks s.history ring.now from }
    ensures { row_of p buf.old (answer_to s ring.now req) ≡ leaving result buf.new }
{
    let history = s.history;
    let written = history.count - s.unsent;
    let k = sequence::distance(history.oldest, req.seq) as usize;
    if written <= k {
        return rows::tested::write_error(
            RetransmitError {
                reason: NOT_IN_BUFFER,
                seq: history.oldest,
            },
            p,
            buf,
        );
    }
    let at = history::tested::index_of(history, ring, from, k);
    rows::tested::write_entries(p, buf, ring, at, reach(req.count as usize, written - k))
}

// What of a request is left in front after `n` of its commands.
fn rest(s: Sender, queue: RetransmitQueue, req: RetransmitRequest, n: usize) -> RetransmitQueue
    requires { Fit queue × (0 < queue.len) × (s.unsent ≤ s.history.count) × (s.history.count ≤ 32768) × (not_written s req.seq ≡ false → n ≤ reach_of s req) }
    ensures { with_queue s result ≡ rest_of (with_queue s queue) req n }
{
    let history = s.history;
    let written = history.count - s.unsent;
    let k = sequence::distance(history.oldest, req.seq) as usize;
    if written <= k {
        return queue;
    }
    let left = reach(req.count as usize, written - k);
    history::tested::set_front(
        queue,
        RetransmitRequest {
            seq: sequence::add(req.seq, n as u16),
            count: (left - n) as u16,
        },
    )
}

// Whether a request leaves the queue: all is written, or its first command or error is too large for
// an empty payload.
fn leaves(out: Row) -> bool
    ensures { result ≡ (out.whole || eqb out.payload.len 0) }
{
    out.whole || out.payload.len == 0
}

// What serving the waiting requests has come to.
#[derive(Clone, Copy)]
struct Served {
    // The requests that wait still.
    queue: RetransmitQueue,
    payload: PayloadWriter,
    written: usize,
    // A request waits for which the payload has no space.
    more: bool,
}

// Serves the waiting requests, the oldest first.
fn serve(s: Sender, p: PayloadWriter, buf: &mut [u8], ring: &[u32], from: Mark) -> Served
    requires { (valid_of s ring.now ≡ true) × (payload_valid p (length buf.old) ≡ true) × Marks s.history ring.now from }
    ensures { served_of s ring.now p buf.old ≡ served_by s result buf.new }
{
    let mut queue = s.queue;
    let mut q = p;
    let mut n = 0;
    // A `while`: a request leaves only where all of it is written.
    while 0 < queue.len {
        let head = queue.head;
        let req = queue.items[head];
        let out = answer(s, req, q, buf, ring, from);
        q = out.payload;
        n += out.written;
        if leaves(out) {
            let popped = history::tested::pop(queue);
            queue = popped.queue;
        } else {
            return Served {
                queue: rest(s, queue, req, out.written),
                payload: q,
                written: n,
                more: true,
            };
        }
    }
    Served {
        queue,
        payload: q,
        written: n,
        more: false,
    }
}

// Queues an idle command if one is due and no command is unwritten.
fn queue_idle(s: Sender, cfg: StreamConfig, time: u64, ring: &mut [u32]) -> Sender
    requires { (check_of cfg ≡ Ok tt) × (valid_of s ring.old ≡ true) }
    ensures { (result, ring.new) ≡ idled_of s cfg time ring.old }
{
    match s.idle {
        None => s,
        Some(i) => {
            if 0 < s.unsent || time < i.due {
                return s;
            }
            Sender {
                history: history::tested::push(s.history, ring, &[0u32; 0]),
                unsent: s.unsent + 1,
                unsent_words: s.unsent_words + 1,
                idle: idle::tested::next(cfg, time, i),
                ..s
            }
        }
    }
}

// The sender after `n` of its unwritten commands were written, which take `words` words; one with
// words among them starts the idle schedule.
fn written_off(s: Sender, cfg: StreamConfig, time: u64, n: usize, words: usize) -> Sender
    requires { (n ≤ s.unsent) × (words ≤ s.unsent_words) }
    ensures { result ≡ taken_off s n words (cond (ltb n words) (idle_start cfg time) s.idle) }
{
    let left = Sender {
        unsent: s.unsent - n,
        unsent_words: s.unsent_words - words,
        ..s
    };
    if n < words {
        return Sender {
            idle: idle::idle::start(cfg, time),
            ..left
        };
    }
    left
}

// Writes the repeats and the unwritten commands, as far as they fit. What the payload has less of free
// words is what they take.
fn write_row(
    s: Sender,
    cfg: StreamConfig,
    time: u64,
    before: usize,
    p: PayloadWriter,
    buf: &mut [u8],
    ring: &[u32],
    again: Repeated,
) -> Wrote
    requires { (valid_of s ring.now ≡ true) × (payload_valid p (length buf.old) ≡ true) × (before ≤ 350) × Again s ring.now p buf.old again }
    ensures { (result, buf.new) ≡ new_row s cfg time before ring.now again.count (row_of p buf.old (packets_from (again.count + s.unsent) ring.now again.at)) }
{
    let free = packet::tested::free_words(p, buf.len());
    let out = rows::tested::write_entries(p, buf, ring, again.at, again.count + s.unsent);
    let payload = out.payload;
    let took = free - packet::tested::free_words(payload, buf.len());
    let n = out.written - again.count;
    Wrote {
        sender: written_off(s, cfg, time, n, took - again.words),
        payload,
        answer: Ok(Written {
            commands: before + out.written,
            more: !out.whole,
        }),
    }
}

// The mark after an idle command was queued where one is due: none is while commands are unwritten; else
// the oldest may have left, and the mark is the oldest that is held.
fn mark_after(unsent: usize, h: SendHistory, from: Mark) -> Mark
    ensures { result ≡ mark_after unsent h from }
{
    if 0 < unsent {
        return from;
    }
    history::tested::oldest(h)
}

// The place of the header of entry `k`: the mark's own, or found by a walk.
fn place_of(h: SendHistory, ring: &[u32], from: Mark, k: usize) -> usize
    requires { Good h ring.now × (k ≤ h.count) × Marks h ring.now from }
    ensures { (result ≡ header_at k ring.now h.head) × (result < length ring.now) }
{
    if from.entry == k {
        return from.at;
    }
    history::tested::index_of(h, ring, from, k)
}

// Writes up to R of the last written commands, and the new ones; `before` commands were written
// before. 3 when the first new one is too large for an empty payload.
fn write_new(
    s: Sender,
    cfg: StreamConfig,
    time: u64,
    before: usize,
    p: PayloadWriter,
    buf: &mut [u8],
    ring: &[u32],
    from: Mark,
) -> Wrote
    requires { (valid_of s ring.now ≡ true) × (payload_valid p (length buf.old) ≡ true) × (before ≤ 350) × Marks s.history ring.now from }
    ensures { (result, buf.new) ≡ new_of s cfg time before p buf.old ring.now }
{
    if s.unsent == 0 {
        return Wrote {
            sender: s,
            payload: p,
            answer: Ok(Written {
                commands: before,
                more: false,
            }),
        };
    }
    let history = s.history;
    let written = history.count - s.unsent;
    let k = least(cfg.fec_repeats as usize, written);
    let at = place_of(history, ring, from, written - k);
    let last = rows::tested::walk(ring, at, k);
    let first = last.at;
    if packet::tested::free_words(p, buf.len()) <= history::tested::pl(ring, first) {
        if p.len == 0 {
            return Wrote {
                sender: s,
                payload: p,
                answer: Err(Refusal::TooLarge),
            };
        }
        return Wrote {
            sender: s,
            payload: p,
            answer: Ok(Written {
                commands: before,
                more: true,
            }),
        };
    }
    let again = rows::tested::repeats(p, &buf[..], ring, at, k, last.words, first);
    write_row(s, cfg, time, before, p, buf, ring, again)
}

// The whole write: serving, the idle command, then repeats and new commands. Entries are walked to from the
// mark, which a test has set where the first of them is.
pub fn write(
    s: Sender,
    cfg: StreamConfig,
    time: u64,
    p: PayloadWriter,
    buf: &mut [u8],
    ring: &mut [u32],
    from: Mark,
) -> Wrote
    requires { (check_of cfg ≡ Ok tt) × (valid_of s ring.old ≡ true) × (payload_valid p (length buf.old) ≡ true) × Marks s.history ring.old from }
    ensures { (result, buf.new, ring.new) ≡ written_by s cfg time p buf.old ring.old }
{
    let served = serve(s, p, buf, &ring[..], from);
    let payload = served.payload;
    let next = Sender {
        queue: served.queue,
        ..s
    };
    if served.more {
        return Wrote {
            sender: next,
            payload,
            answer: Ok(Written {
                commands: served.written,
                more: true,
            }),
        };
    }
    let idled = queue_idle(next, cfg, time, ring);
    let held = idled.history;
    let mark = mark_after(s.unsent, held, from);
    write_new(
        idled,
        cfg,
        time,
        served.written,
        payload,
        buf,
        &ring[..],
        mark,
    )
}
