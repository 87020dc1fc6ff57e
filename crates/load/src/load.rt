// The load: its values, and what the last one asks to send.
ghost use Rattle.std.specs.Prelude.{◌≡◌, ◌+◌, ◌*◌, ◌%◌, ◌^◌, if◌then◌else◌, nat_eq};
ghost use Rattle.load.specs.Load.{draw_of, jump_of, asked_of};

// A value is the last one times this ..
const TIMES: u32 = 1664525;
// .. plus this, modulo 2^32.
const PLUS: u32 = 1013904223;

// The word that is sent.
pub const WORD: u32 = 0x2090_3C40;

// Lies in memory as in C, and so do the two below: crate `c_load` hands them out.
#[repr(C)]
#[derive(Clone, Copy)]
pub struct Load {
    // The last value drawn, at first the seed.
    pub last: u32,
}

// Where a jump has led.
#[repr(C)]
#[derive(Clone, Copy)]
pub struct Jump {
    pub load: Load,
    // How many rounds it took: as many as the count has binary digits, 0 to 16.
    pub rounds: u32,
}

// What a value asks to send.
#[repr(C)]
#[derive(Clone, Copy)]
pub struct Words {
    // The first `count` of these.
    pub words: [u32; 8],
    // 0, the value being idle, to 8.
    pub count: usize,
}

// x times a plus b, modulo 2^32.
fn mapped(a: u32, b: u32, x: u32) -> u32
    ensures { result ≡ (x * a + b) % 2 ^ 32 }
{
    x.wrapping_mul(a).wrapping_add(b)
}

// x times a plus b, modulo 2^32, where `left` is odd; else x.
fn if_odd(a: u32, b: u32, x: u32, left: u16) -> u32
    ensures { result ≡ (if nat_eq (left % 2) 1 then (x * a + b) % 2 ^ 32 else x) }
{
    if left % 2 == 1 { mapped(a, b, x) } else { x }
}

impl Load {
    // One draw.
    pub fn draw(self) -> Load
        ensures { result ≡ draw_of self }
    {
        Load {
            last: mapped(TIMES, PLUS, self.last),
        }
    }

    // n draws at one step. Each round halves what is left to draw: two turns of x * a + b are one of another
    // such map.
    pub fn jump(self, n: u16) -> Jump
        ensures { result ≡ jump_of self n }
    {
        let mut a = TIMES;
        let mut b = PLUS;
        let mut x = self.last;
        let mut left = n;
        let mut rounds = 0;
        // A `while`: what is left halves, which no range does.
        while 0 < left {
            x = if_odd(a, b, x, left);
            let square = a.wrapping_mul(a);
            b = mapped(a, b, b);
            a = square;
            left /= 2;
            rounds += 1;
        }
        Jump {
            load: Load { last: x },
            rounds,
        }
    }

    // What the last value asks to send: nothing where its top bit is 0, else one word more than its next
    // three bits say.
    pub fn words(self) -> Words
        ensures { result ≡ asked_of self }
    {
        let top = self.last / 0x1000_0000;
        let count = if top < 8 { 0 } else { top % 8 + 1 };
        Words {
            words: [WORD; 8],
            count: count as usize,
        }
    }
}
