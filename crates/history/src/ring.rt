// Places and straight runs of a ring of words in a slice.
ghost use Rattle.std.specs.Prelude.{◌≡◌, ◌+◌, ◌<◌, ◌≤◌, length, drop};
ghost use Rattle.history.specs.Ring.{slot_of, run_of, ring_stored};

use config::range::least;

// The place `n` after `i` in a ring of `c`.
#[tactic(auto, unfolding(crate::specs::Ring::slot_of))]
pub fn slot(c: usize, i: usize, n: usize) -> usize
    requires { (i < c) × (n ≤ c) × (c ≤ 32768) }
    ensures { (result ≡ slot_of c i n) × (result < c) }
{
    let j = i + n;
    if j < c { j } else { j - c }
}

// How many of `n` words from place `at` on lie before the end.
pub fn run_end(c: usize, at: usize, n: usize) -> usize
    requires { at ≤ c }
    ensures { result ≡ run_of c at n }
{
    least(n, c - at)
}

// Stores `n` words, from the word `from` on, at place `at` and after it, up to the end at most. A loop: a copy of the
// library's would ask `memmove` of who links the archive for C.
fn put_run(ring: &mut [u32], at: usize, words: &[u32], from: usize, n: usize)
    requires { (from + n ≤ length words.now) × (at + n ≤ length ring.old) × (at < length ring.old) }
    ensures { (length ring.new ≡ length ring.old)
        × (ring_stored ring.new (slot_of (length ring.old) at n) (drop (from + n) words.now) ≡ ring_stored ring.old at (drop from words.now)) }
{
    for k in 0..n {
        ring[at + k] = words[from + k];
    }
}

// Stores the words from place `at` on, round the end.
pub fn put(ring: &mut [u32], at: usize, words: &[u32])
    requires { (at < length ring.old) × (length words.now ≤ length ring.old) }
    ensures { ring.new ≡ ring_stored ring.old at words.now }
{
    let n = words.len();
    let room = run_end(ring.len(), at, n);
    put_run(ring, at, words, 0, room);
    if room < n {
        put_run(ring, 0, words, room, n - room);
    }
}
