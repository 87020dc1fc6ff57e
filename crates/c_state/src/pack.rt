// Small figures in a word: four of 16 bits, two of 8 bits in one of 16, four flags; the first lowest.
//
//     | d | c | b | a |     16 bits each
ghost use Rattle.std.specs.Prelude.{◌≡◌};
ghost use Rattle.c_state.specs.Pack.{four_in, word as word_of, two_in, pair as pair_of, flags_in, flags_number, held as held_of};

#[derive(Clone, Copy)]
pub struct Quarters {
    pub a: u16,
    pub b: u16,
    pub c: u16,
    pub d: u16,
}

// The four figures of a word.
pub fn four(w: u64) -> Quarters
    ensures { result ≡ four_in w }
{
    Quarters {
        a: (w % 0x1_0000) as u16,
        b: (w / 0x1_0000 % 0x1_0000) as u16,
        c: (w / 0x1_0000_0000 % 0x1_0000) as u16,
        d: (w / 0x1_0000_0000_0000) as u16,
    }
}

// The word of four figures.
pub fn word(a: u16, b: u16, c: u16, d: u16) -> u64
    ensures { result ≡ word_of a b c d }
{
    (a as u64)
        + (b as u64) * 0x1_0000
        + (c as u64) * 0x1_0000_0000
        + (d as u64) * 0x1_0000_0000_0000
}

#[derive(Clone, Copy)]
pub struct Halves {
    pub low: u8,
    pub high: u8,
}

// The two figures of 16 bits.
pub fn two(n: u16) -> Halves
    ensures { result ≡ two_in n }
{
    Halves {
        low: (n % 0x100) as u8,
        high: (n / 0x100) as u8,
    }
}

// 16 bits of two figures.
pub fn pair(low: u8, high: u8) -> u16
    ensures { result ≡ pair_of low high }
{
    (low as u16) + (high as u16) * 0x100
}

// The receiver's.
#[derive(Clone, Copy)]
pub struct Flags {
    pub timer: bool,
    pub request_due: bool,
    pub refused: bool,
    pub asked: bool,
}

// The flags of a number, the first lowest.
pub fn flags_in(n: u8) -> Flags
    ensures { result ≡ flags_in n }
{
    Flags {
        timer: n % 2 == 1,
        request_due: n / 2 % 2 == 1,
        refused: n / 4 % 2 == 1,
        asked: n / 8 == 1,
    }
}

// The number that flags make.
pub fn number(f: Flags) -> u8
    ensures { result ≡ flags_number f }
{
    (f.timer as u8) + (f.request_due as u8) * 2 + (f.refused as u8) * 4 + (f.asked as u8) * 8
}

// Whether figures may stand beside a flag: where it is not set, they are 0.
#[tactic(auto, unfolding(crate::specs::Pack::held))]
pub fn held(on: bool, x: u64, y: u64, z: u64) -> bool
    ensures { result ≡ held_of on x y z }
{
    on || (x == 0 && y == 0 && z == 0)
}
