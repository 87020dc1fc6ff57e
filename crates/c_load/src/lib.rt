// The load as C functions, which include/sirmjold.h declares. A load is its last value, at first the seed:
// no memory is lent, and nothing is refused.
#![tactic(auto)]

ghost use Rattle.std.specs.Prelude.{◌≡◌};
ghost use Rattle.load.specs.Load.{draw_of, jump_of, asked_of};

use load::load::{Jump, Load, Words};

// One draw.
#[unsafe(no_mangle)]
pub extern "C" fn sirmjold_load_draw(load: Load) -> Load
    ensures { result ≡ draw_of load }
{
    load.draw()
}

// n draws at one step, and the rounds that they took.
#[unsafe(no_mangle)]
pub extern "C" fn sirmjold_load_jump(load: Load, n: u16) -> Jump
    ensures { result ≡ jump_of load n }
{
    load.jump(n)
}

// What the last value asks to send.
#[unsafe(no_mangle)]
pub extern "C" fn sirmjold_load_words(load: Load) -> Words
    ensures { result ≡ asked_of load }
{
    load.words()
}
