// The walk over the headers of a ring, from the oldest on.
//
//     at, seq, prev, words  --leg-->  the end of the slice  --slot-->  its start  --leg-->  ..
//
// A leg goes straight on, at most to the end of the slice, so that only the walk has to go round. There
// are two kinds: `equal_leg` passes entries of one length, and so does not wait for a header to be read
// to find the next; `any_leg` passes any. Both are a `loop`: a step is as long as a header says, and the
// tests come after it, which saves those before the first.
ghost use Rattle.std.specs.Prelude.{◌≡◌, ℕ, ◌<◌, ◌≤◌, length, if◌then◌else◌};
ghost use Rattle.history.specs.inner.Walk.{Ran, Walked};

use super::ring;
use config::range::least;
use config::sequence::SeqNum;

// The most words of one command.
pub const MAX_PL: usize = 64;

// Where a walk stands.
#[derive(Clone, Copy)]
pub struct Stop {
    // The place of the next header.
    pub at: usize,
    // The number that it must have.
    pub seq: SeqNum,
    // The place of the header before it.
    pub prev: usize,
    // The words that are left.
    pub words: usize,
}

// Where a leg has come to. A leg that meets a wrong header gives none.
#[derive(Clone, Copy)]
pub struct Leg {
    // The number of the next entry.
    pub seq: SeqNum,
    // The place of the header before it.
    pub prev: usize,
    // The words of the entries passed.
    pub words: usize,
    // How many entries were passed.
    pub passed: usize,
}

// Passes entries from the header at `at` on, up to `k` or to the end of the slice.
fn any_leg(ring: &[u32], at: usize, seq: SeqNum, k: usize) -> Option<Leg>
    requires { (at < length ring.now) × (length ring.now ≤ 32768) × (0 < k) }
    ensures { (p : ℕ) → Ran ring.now at seq p k result }
{
    let mut i = at;
    let mut passed = 0;
    // The number in the upper half, over a length of 0.
    let mut want = (seq as u32) * 0x1_0000;
    let mut prev = at;
    loop {
        // The place after the entry; more than 64 words on if the number is wrong or bits 8 to 15 are
        // not zero. What does not need the header is computed apart, while that is read.
        let base = std::num::wrapping_sub_usize(i + 1, want as usize);
        let next = std::num::wrapping_add_usize(ring[i] as usize, base);
        if MAX_PL < std::num::wrapping_sub_usize(next, i + 1) {
            return None;
        }
        prev = i;
        i = next;
        want = std::num::wrapping_add_u32(want, 0x1_0000);
        passed += 1;
        if passed == k {
            break;
        }
        if ring.len() <= i {
            break;
        }
    }
    Some(Leg {
        seq: (want / 0x1_0000) as u16,
        prev,
        words: i - at,
        passed,
    })
}

// Passes entries from the header at `at` on that have its length, up to `k` or to the end of the slice.
fn equal_leg(ring: &[u32], at: usize, seq: SeqNum, k: usize) -> Option<Leg>
    requires { (at < length ring.now) × (length ring.now ≤ 32768) × (0 < k) }
    ensures { (p : ℕ) → Ran ring.now at seq p k result }
{
    let pl = std::num::wrapping_sub_usize(ring[at] as usize, (seq as usize) * 0x1_0000);
    if MAX_PL < pl {
        return None;
    }
    let step = 1 + pl;
    let mut i = at;
    let mut passed = 0;
    let mut header = ring[at];
    loop {
        if ring[i] != header {
            break;
        }
        i += step;
        header = std::num::wrapping_add_u32(header, 0x1_0000);
        passed += 1;
        if passed == k {
            break;
        }
        if ring.len() <= i {
            break;
        }
    }
    Some(Leg {
        seq: (header / 0x1_0000) as u16,
        prev: i - step,
        words: i - at,
        passed,
    })
}

// The most entries of one run.
const MOST: usize = 128;

// A leg of at most `k` entries; `guess` says that they may have one length.
fn next_leg(ring: &[u32], at: usize, seq: SeqNum, k: usize, guess: bool) -> Option<Leg>
    requires { (at < length ring.now) × (length ring.now ≤ 32768) × (0 < k) }
    ensures { (p : ℕ) → Ran ring.now at seq p k result }
{
    if guess {
        equal_leg(ring, at, seq, k)
    } else {
        any_leg(ring, at, seq, least(k, MOST))
    }
}

// Entries of one length that are worth the guess.
const WORTH_A_GUESS: usize = 8;

// How many entries a leg must have passed for the next one to be an `equal_leg`.
fn next_kind(guess: bool) -> usize
    ensures { result ≡ (if guess then 8 else 128) }
{
    if guess { WORTH_A_GUESS } else { MOST }
}

// Passes `k` entries; none where a header is wrong, or they take more words than are left.
pub fn walk(ring: &[u32], from: Stop, k: usize) -> Option<Stop>
    requires { (from.at < length ring.now) × (from.words ≤ length ring.now) × (length ring.now ≤ 32768) }
    ensures { Walked ring.now from k result }
{
    let mut at = from.at;
    let mut seq = from.seq;
    let mut prev = from.prev;
    let mut words = from.words;
    let mut left = k;
    let mut guess = WORTH_A_GUESS <= k;
    // A `while`: a leg passes as many entries as it finds, not one.
    while 0 < left {
        let out = next_leg(ring, at, seq, left, guess)?;
        if words < out.words {
            return None;
        }
        at = ring::slot(ring.len(), at, out.words);
        seq = out.seq;
        prev = out.prev;
        words -= out.words;
        guess = next_kind(guess) <= out.passed;
        left -= out.passed;
    }
    Some(Stop {
        at,
        seq,
        prev,
        words,
    })
}
