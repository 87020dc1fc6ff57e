// The state test `is_valid`, and what is asked of a state that was tested or marked in it: these require what the test
// says. A layer above tests once for each of its calls.
ghost use Rattle.std.specs.Prelude.{◌≡◌, ◌+◌, ◌^◌, ◌≤◌, ◌<◌, eqb};
ghost use Rattle.window.specs.Set.{max_window, val, set_of};
ghost use Rattle.window.specs.Window.{Valid, valid_of, fresh_of, processed, is_processed, missing_of, missing_span, request_of};
ghost use Rattle.window.specs.Marking.{hit_at, hits_of, mark_of};

use super::set;
use super::set::Bits;
use super::span::{number_at, range_to, span_of};
use super::window::{Marked, ReceiveWindow, SeqRange};
use config::sequence::SeqNum;
use config::{range, sequence};

// The state test: the size is one that starting takes, and no position outside it is set.
pub fn is_valid(w: ReceiveWindow) -> bool
    ensures { result ≡ valid_of w }
{
    if range::outside(1, set::MAX_WINDOW as usize, w.size as usize) {
        return false;
    }
    set::below(w.bits, w.size)
}

// All before the highest processed.
pub fn starting_at(size: u32, highest: SeqNum) -> ReceiveWindow
    requires { (1 ≤ size) × (size ≤ max_window) }
    ensures { result ≡ fresh_of size highest }
{
    let bits = set::lowest(size);
    ReceiveWindow {
        size,
        highest,
        bits,
    }
}

// The positions that were not processed.
pub fn missing_set(w: ReceiveWindow) -> Bits
    requires { Valid w }
    ensures { result ≡ set_of (missing_of w) }
{
    set::both(set::flipped(w.bits), set::lowest(w.size))
}

// Whether nothing is missing.
pub fn complete(w: ReceiveWindow) -> bool
    requires { Valid w }
    ensures { result ≡ eqb (missing_of w) 0 }
{
    set::is_lowest(w.bits, w.size)
}

// From the oldest to the newest missing number.
pub fn missing(w: ReceiveWindow) -> Option<SeqRange>
    requires { Valid w }
    ensures { result ≡ missing_span w }
{
    span_of(w.highest, missing_set(w))
}

// From the oldest missing number to just before the highest.
pub fn request(w: ReceiveWindow) -> Option<SeqRange>
    requires { Valid w }
    ensures { result ≡ request_of w }
{
    let m = missing_set(w);
    if set::empty(m) {
        return None;
    }
    Some(range_to(w.highest, set::top(m), 0))
}

// Whether the position `back` behind the highest is processed: the highest is, and so is all beyond the window.
pub fn processed_at(w: ReceiveWindow, back: u32) -> bool
    requires { Valid w }
    ensures { result ≡ processed w back }
{
    if back == 0 {
        return true;
    }
    let k = back - 1;
    if w.size <= k {
        return true;
    }
    set::holds(w.bits, k)
}

// Whether the number is the highest, or one of the window's numbers that was processed.
pub fn is_processed(w: ReceiveWindow, seq: SeqNum) -> bool
    requires { Valid w }
    ensures { result ≡ is_processed w seq }
{
    let back = sequence::distance(seq, w.highest) as u32;
    back <= w.size && processed_at(w, back)
}

// All numbers of the window are processed now.
pub fn mark_all(w: ReceiveWindow) -> ReceiveWindow
    requires { Valid w }
    ensures { result ≡ fresh_of w.size w.highest }
{
    starting_at(w.size, w.highest)
}

// `found`, all below k, with position k where m has it and its number is in the range.
fn hit(found: Bits, m: Bits, h: SeqNum, range: SeqRange, k: u32) -> Bits
    requires { (k < max_window) × (val found < 2 ^ k) }
    ensures { result ≡ set_of (val found + hit_at range h (val m) k) }
{
    if set::holds(m, k) && range.contains(number_at(h, k)) {
        return set::with(found, k);
    }
    found
}

// The positions of m below `size` whose numbers are in the range.
fn hits(m: Bits, size: u32, h: SeqNum, range: SeqRange) -> Bits
    requires { size ≤ max_window }
    ensures { result ≡ set_of (hits_of range h (val m) size) }
{
    let mut found = set::none();
    for k in 0..size {
        found = hit(found, m, h, range, k);
    }
    found
}

// The missing numbers that are in the range are processed now; the answer spans them.
pub fn mark_range(w: ReceiveWindow, range: SeqRange) -> Marked
    requires { Valid w }
    ensures { result ≡ mark_of w range }
{
    let m = missing_set(w);
    let found = hits(m, w.size, w.highest, range);
    let marked = set::either(w.bits, found);
    Marked {
        window: ReceiveWindow { bits: marked, ..w },
        span: span_of(w.highest, found),
    }
}
