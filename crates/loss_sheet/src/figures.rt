// Figures over words of class * 65,536 + loss count.
ghost use Rattle.std.specs.Prelude.{◌≡◌, ◌+◌, ◌≤◌, length};
ghost use Rattle.sheet_blocks.specs.Bytes.{spliced};
ghost use Rattle.loss_sheet.specs.Figures.{figures, plus, minus, figure_bytes};
ghost use Rattle.loss_sheet.specs.inner.Fits.{Few, Within};

use sheet_blocks::bytes::put_word;

#[derive(Clone, Copy)]
pub struct Figures {
    // How many are New, Late and Duplicate.
    pub new: u32,
    pub late: u32,
    pub duplicate: u32,
    // The sum of their loss counts.
    pub lost: u32,
}

// The figures with one word more.
#[tactic(auto, unfolding(crate::specs::Figures::plus))]
pub fn add(f: Figures, w: u32) -> Figures
    requires { Few f }
    ensures { result ≡ plus f w }
{
    let class = w / 0x1_0000;
    Figures {
        new: f.new + u32::from(class == 0),
        late: f.late + u32::from(class == 1),
        duplicate: f.duplicate + u32::from(class == 2),
        lost: f.lost + w % 0x1_0000,
    }
}

// The figures with one word, which is among theirs, less.
#[tactic(auto, unfolding(crate::specs::Figures::minus))]
pub fn sub(f: Figures, w: u32) -> Figures
    requires { Within f w }
    ensures { result ≡ minus f w }
{
    let class = w / 0x1_0000;
    Figures {
        new: f.new - u32::from(class == 0),
        late: f.late - u32::from(class == 1),
        duplicate: f.duplicate - u32::from(class == 2),
        lost: f.lost - w % 0x1_0000,
    }
}

// The figures of all the words.
pub fn of(words: &[u32]) -> Figures
    requires { length words.now ≤ 4096 }
    ensures { result ≡ figures words.now }
{
    let mut f = Figures {
        new: 0,
        late: 0,
        duplicate: 0,
        lost: 0,
    };
    for &w in words {
        f = add(f, w);
    }
    f
}

// Stores the four figures from index `at`.
pub fn put(out: &mut [u8], at: usize, f: Figures)
    requires { at + 16 ≤ length out.old }
    ensures { out.new ≡ spliced out.old at (figure_bytes f) }
{
    put_word(out, at, f.new);
    put_word(out, at + 4, f.late);
    put_word(out, at + 8, f.duplicate);
    put_word(out, at + 12, f.lost);
}
