// A number arrives at a state that was tested. An arrival is put together from these parts by each layer above:
//
//     in order: accept_next      ahead: class_ahead, lost_to, moved_to      behind: accept_behind
ghost use Rattle.std.specs.Prelude.{◌≡◌, true, false, ◌+◌, ◌-◌, ◌*◌, ◌%◌, ◌^◌, ◌≤◌, ◌<◌};
ghost use Rattle.config.specs.Range.{within};
ghost use Rattle.config.specs.Sequence.{ahead};
ghost use Rattle.window.specs.Set.{max_window, val, set_of};
ghost use Rattle.window.specs.Window.{Valid, span_of};
ghost use Rattle.window.specs.Arrival.{reach, lost_of, class_of, in_order, accept_of};

use super::set::Bits;
use super::span::range_to;
use super::window::{Arrival, Class, ReceiveWindow, SeqRange};
use super::{set, tested};
use config::sequence;
use config::sequence::SeqNum;

// The farthest ahead of the highest that a number is read as New.
const REACH: u16 = 0x7FFF;

// Whether a number this far ahead of the highest is read as New.
fn is_new(d: u16) -> bool
    ensures { result ≡ within 1 reach d }
{
    d != 0 && d <= REACH
}

// Whether the number is ahead of the highest. The others are read as behind it.
pub fn is_ahead(w: ReceiveWindow, seq: SeqNum) -> bool
    ensures { result ≡ within 1 reach (ahead w.highest seq) }
{
    is_new(sequence::distance(w.highest, seq))
}

// What a number is to the window, which stays as it is.
pub fn classify(w: ReceiveWindow, seq: SeqNum) -> Class
    requires { Valid w }
    ensures { result ≡ class_of w seq }
{
    let h = w.highest;
    let d = sequence::distance(h, seq);
    if is_new(d) {
        return Class::New(d - 1);
    }
    if tested::processed_at(w, sequence::distance(seq, h) as u32) {
        return Class::Duplicate;
    }
    Class::Late
}

// Whether the number is the next one, with nothing missing before it.
pub fn in_order(w: ReceiveWindow, seq: SeqNum) -> bool
    requires { Valid w }
    ensures { result ≡ in_order w seq }
{
    if sequence::distance(w.highest, seq) == 1 {
        return tested::complete(w);
    }
    false
}

// A number in order arrives: the highest alone changes.
pub fn accept_next(w: ReceiveWindow, seq: SeqNum) -> Arrival
    requires { Valid w × (in_order w seq ≡ true) }
    ensures { result ≡ accept_of w seq }
{
    Arrival {
        window: ReceiveWindow { highest: seq, ..w },
        class: Class::New(0),
        lost: None,
    }
}

// The class of a number ahead.
pub fn class_ahead(w: ReceiveWindow, seq: SeqNum) -> Class
    requires { within 1 reach (ahead w.highest seq) ≡ true }
    ensures { result ≡ (accept_of w seq).class }
{
    let d = sequence::distance(w.highest, seq);
    let gap = d - 1;
    Class::New(gap)
}

// What leaves a window with the missing positions m when the number h, d ahead, arrives: skipped numbers leave
// from distance size + 2 on.
fn lost(h: SeqNum, size: u32, m: Bits, d: u32) -> Option<SeqRange>
    requires { (1 ≤ size) × (size ≤ max_window) × (1 ≤ d) × (d ≤ reach) × (val m < 2 ^ size) }
    ensures { result ≡ span_of h size (lost_of size (val m) d) }
{
    if set::empty(m) {
        if size + 2 <= d {
            return Some(range_to(h, d - 2, size));
        }
        return None;
    }
    let oldest = set::top(m) + d;
    if oldest < size {
        return None;
    }
    if d < size + 2 {
        let stay = if d < size { size - d } else { 0 };
        let old = set::from(m, stay);
        return Some(range_to(h, oldest, set::bottom(old) + d));
    }
    Some(range_to(h, oldest, size))
}

// What leaves the window unprocessed when a number ahead arrives. This is the one large step of an
// arrival: it stays a call, and the steps beside it are small enough to be inlined at each caller.
pub fn lost_to(w: ReceiveWindow, seq: SeqNum) -> Option<SeqRange>
    requires { Valid w × (within 1 reach (ahead w.highest seq) ≡ true) }
    ensures { result ≡ (accept_of w seq).lost }
{
    let size = w.size;
    let h = w.highest;
    lost(
        seq,
        size,
        tested::missing_set(w),
        sequence::distance(h, seq) as u32,
    )
}

// The processed positions after a number d ahead arrived, before those at the size and above leave.
fn moved(s: Bits, d: u32) -> Bits
    requires { (1 ≤ d) × (d ≤ reach) }
    ensures { result ≡ set_of (((val s * 2 + 1) * 2 ^ (d - 1)) % 2 ^ max_window) }
{
    set::shifted(set::with(set::shifted(s, 1), 0), d - 1)
}

// The window moved up to a number ahead.
pub fn moved_to(w: ReceiveWindow, seq: SeqNum) -> ReceiveWindow
    requires { Valid w × (within 1 reach (ahead w.highest seq) ≡ true) }
    ensures { result ≡ (accept_of w seq).window }
{
    let up = moved(w.bits, sequence::distance(w.highest, seq) as u32);
    ReceiveWindow {
        highest: seq,
        bits: set::both(up, set::lowest(w.size)),
        ..w
    }
}

// A number that is not ahead arrives: it is Late or a Duplicate, and nothing leaves.
pub fn accept_behind(w: ReceiveWindow, seq: SeqNum) -> Arrival
    requires { Valid w × (within 1 reach (ahead w.highest seq) ≡ false) }
    ensures { result ≡ accept_of w seq }
{
    let back = sequence::distance(seq, w.highest) as u32;
    if tested::processed_at(w, back) {
        return Arrival {
            window: w,
            class: Class::Duplicate,
            lost: None,
        };
    }
    Arrival {
        window: ReceiveWindow {
            bits: set::with(w.bits, back - 1),
            ..w
        },
        class: Class::Late,
        lost: None,
    }
}
