// The set of held notes, as 32 words: note k is bit k % 64 of word k / 64.
ghost use Rattle.std.specs.Prelude.{◌≡◌, true, false, ◌<◌};
ghost use Rattle.held_notes.specs.State.{all_notes, has, Turned};

pub fn holds(held: [u64; 32], note: usize) -> bool
    requires { note < all_notes }
    ensures { result ≡ has held note }
{
    (held[note / 64] >> (note % 64)) % 2 == 1
}

// The set with the note.
pub fn with(held: [u64; 32], note: usize) -> [u64; 32]
    requires { note < all_notes }
    ensures { Turned true note held result }
{
    let mut after = held;
    after[note / 64] = held[note / 64] | (1u64 << (note % 64));
    after
}

// The set without it.
pub fn without(held: [u64; 32], note: usize) -> [u64; 32]
    requires { note < all_notes }
    ensures { Turned false note held result }
{
    let bit = 1u64 << (note % 64);
    let mut after = held;
    after[note / 64] = (held[note / 64] | bit) ^ bit;
    after
}
