// A receive window alone as C functions, which include/sirmjold.h declares: those of crate c_window, one call each, in an archive for C.
#![tactic(auto)]

ghost use Rattle.std.specs.Prelude.{◌≡◌};
ghost use Rattle.c_window.specs.Window.{start_export, accept_export};

use c_answers::answers::CDelivery;
use c_window::exports;

// A window of `size` numbers, 1 to 128; `highest` and all before it are processed. A fresh window
// has the highest 65535.
#[unsafe(no_mangle)]
pub extern "C" fn sirmjold_window_starting_at(w: &mut [u64], size: u32, highest: u16) -> u8
    ensures { (result, w.new) ≡ start_export w.old size highest }
{
    exports::sirmjold_window_starting_at(w, size, highest)
}

// A number arrives.
#[unsafe(no_mangle)]
pub extern "C" fn sirmjold_window_accept(w: &mut [u64], seq: u16) -> CDelivery
    ensures { (result, w.new) ≡ accept_export w.old seq }
{
    exports::sirmjold_window_accept(w, seq)
}
