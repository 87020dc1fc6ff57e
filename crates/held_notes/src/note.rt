// One message: what it leaves held.
ghost use Rattle.held_notes.specs.State.{Played};

use super::set;
use notes::message;

// What is held after the message: with a command that is not New it releases but never holds.
pub fn play(group: u32, new: bool, held: [u64; 32], first: u32) -> [u64; 32]
    ensures { Played group new first held result }
{
    if message::is_ours(group, first) {
        let note = message::note_of(first);
        if message::is_on(first) {
            if new {
                return set::with(held, note);
            }
            return held;
        }
        if message::is_off(first) {
            return set::without(held, note);
        }
        return held;
    }
    held
}
