// The held notes as a list.
ghost use Rattle.std.specs.Prelude.{◌≡◌};
ghost use Rattle.held_notes.specs.Answers.{list_of};

use super::set;

// Notes by channel, then note: each is its channel times 128 plus its note byte.
#[repr(C)]
#[derive(Clone, Copy)]
pub struct Notes {
    // How many there are, at most 2048.
    pub count: usize,
    // They come first; the rest is 0.
    pub items: [u16; 2048],
}

pub fn listed(held: [u64; 32]) -> Notes
    ensures { result ≡ list_of held }
{
    let mut items = [0u16; 2048];
    let mut count = 0;
    for note in 0..2048 {
        if set::holds(held, note) {
            items[count] = note as u16;
            count += 1;
        }
    }
    Notes { count, items }
}
