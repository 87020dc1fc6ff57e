// A set of positions, as two words. Contracts speak of its number, `val`: digit k of it is position k.
// The functions down to `with` know the words; the others go through these.
//
//     high                       low
//     | 127 | .. | 65 | 64 |     | 63 | .. | 1 | 0 |
ghost use Rattle.std.specs.Prelude.{◌≡◌, ◌+◌, ◌-◌, ◌*◌, ◌/◌, ◌%◌, ◌^◌, ◌≤◌, ◌<◌, eqb, ltb};
ghost use Rattle.std.specs.Int.Bits.{bit_and, bit_or};
ghost use Rattle.window.specs.Set.{max_window, val, set_of, has, top_of, bottom_of};

// How many positions a set has room for: the largest window.
pub const MAX_WINDOW: u32 = 128;
// The positions of one word.
const WORD: u32 = 64;

#[derive(Clone, Copy)]
pub struct Bits {
    // Positions 0 to 63.
    pub low: u64,
    // Positions 64 to 127.
    pub high: u64,
}

// No position.
pub fn none() -> Bits
    ensures { result ≡ set_of 0 }
{
    Bits { low: 0, high: 0 }
}

// The positions of both.
pub fn both(a: Bits, b: Bits) -> Bits
    ensures { result ≡ set_of (bit_and (val a) (val b)) }
{
    Bits {
        low: a.low & b.low,
        high: a.high & b.high,
    }
}

// The positions of either.
pub fn either(a: Bits, b: Bits) -> Bits
    ensures { result ≡ set_of (bit_or (val a) (val b)) }
{
    Bits {
        low: a.low | b.low,
        high: a.high | b.high,
    }
}

// The other positions.
pub fn flipped(a: Bits) -> Bits
    ensures { result ≡ set_of ((2 ^ max_window - 1) - val a) }
{
    Bits {
        low: !a.low,
        high: !a.high,
    }
}

pub fn empty(s: Bits) -> bool
    ensures { result ≡ eqb (val s) 0 }
{
    s.low == 0 && s.high == 0
}

// Each position up by a word and n more; those above the last leave.
fn word_up(s: Bits, n: u32) -> Bits
    requires { n < 64 }
    ensures { result ≡ set_of ((val s * 2 ^ (n + 64)) % 2 ^ max_window) }
{
    Bits {
        low: 0,
        high: s.low << n,
    }
}

// Each position up by n, less than a word; those above the last leave.
fn bits_up(s: Bits, n: u32) -> Bits
    requires { (1 ≤ n) × (n < 64) }
    ensures { result ≡ set_of ((val s * 2 ^ n) % 2 ^ max_window) }
{
    Bits {
        low: s.low << n,
        high: (s.high << n) | (s.low >> (WORD - n)),
    }
}

// The highest position of a set that has one.
pub fn top(s: Bits) -> u32
    requires { 0 < val s }
    ensures { (result ≡ top_of (val s)) × (result < max_window) }
{
    if s.high != 0 {
        return 2 * WORD - 1 - s.high.leading_zeros();
    }
    WORD - 1 - s.low.leading_zeros()
}

// The lowest position of a set that has one.
pub fn bottom(s: Bits) -> u32
    requires { 0 < val s }
    ensures { result ≡ bottom_of (val s) }
{
    if s.low != 0 {
        return s.low.trailing_zeros();
    }
    WORD + s.high.trailing_zeros()
}

// The n lowest positions, one at least.
pub fn lowest(n: u32) -> Bits
    requires { (1 ≤ n) × (n ≤ max_window) }
    ensures { result ≡ set_of (2 ^ n - 1) }
{
    let last = u64::MAX >> ((2 * WORD - n) % WORD);
    if n <= WORD {
        return Bits { low: last, high: 0 };
    }
    Bits {
        low: u64::MAX,
        high: last,
    }
}

// Whether no position is at n or above.
pub fn below(s: Bits, n: u32) -> bool
    requires { (1 ≤ n) × (n ≤ max_window) }
    ensures { result ≡ ltb (val s) (2 ^ n) }
{
    let last = u64::MAX >> ((2 * WORD - n) % WORD);
    if n <= WORD {
        if s.high != 0 {
            return false;
        }
        return s.low <= last;
    }
    s.high <= last
}

// Whether a set that is below n has every position there.
pub fn is_lowest(s: Bits, n: u32) -> bool
    requires { (1 ≤ n) × (n ≤ max_window) × (val s < 2 ^ n) }
    ensures { result ≡ eqb (val s) (2 ^ n - 1) }
{
    let last = u64::MAX >> ((2 * WORD - n) % WORD);
    if n <= WORD {
        return s.low == last;
    }
    if s.low != u64::MAX {
        return false;
    }
    s.high == last
}

pub fn holds(s: Bits, k: u32) -> bool
    requires { k < max_window }
    ensures { result ≡ has (val s) k }
{
    if k < WORD {
        return (s.low >> k) % 2 == 1;
    }
    (s.high >> (k - WORD)) % 2 == 1
}

// The set with position k.
pub fn with(s: Bits, k: u32) -> Bits
    requires { k < max_window }
    ensures { result ≡ set_of (bit_or (val s) (2 ^ k)) }
{
    if k < WORD {
        return Bits {
            low: s.low | (1u64 << k),
            high: s.high,
        };
    }
    Bits {
        low: s.low,
        high: s.high | (1u64 << (k - WORD)),
    }
}

// Each position up by n, whatever n is; those above the last leave.
pub fn shifted(s: Bits, n: u32) -> Bits
    ensures { result ≡ set_of ((val s * 2 ^ n) % 2 ^ max_window) }
{
    if n == 0 {
        return s;
    }
    if n < WORD {
        return bits_up(s, n);
    }
    if n < MAX_WINDOW {
        return word_up(s, n - WORD);
    }
    none()
}

// The n lowest positions.
pub fn low_ones(n: u32) -> Bits
    requires { n ≤ max_window }
    ensures { result ≡ set_of (2 ^ n - 1) }
{
    if n == 0 {
        return none();
    }
    lowest(n)
}

// The positions of the set at n and above.
pub fn from(s: Bits, n: u32) -> Bits
    requires { n ≤ max_window }
    ensures { result ≡ set_of (val s / 2 ^ n * 2 ^ n) }
{
    both(s, flipped(low_ones(n)))
}
