// The messages of a data command, one after the other.
ghost use Rattle.packet.specs.Bytes.{words_of};
ghost use Rattle.command.specs.Messages.{messages_of};
ghost use Rattle.held_notes.specs.Calls.{messages};
ghost use Rattle.held_notes.specs.State.{Leads};

use super::note;
use command::message::{message_in, word_at};

// What is held after the whole messages of a command.
pub fn play_all(group: u32, new: bool, held: [u64; 32], body: &[u8]) -> [u64; 32]
    ensures { Leads group (messages new (messages_of (words_of body.now)).whole) held result }
{
    let mut after = held;
    let mut at = 0;
    // A `loop`: each message says how many words it has, and the last one where to end.
    loop {
        let n = message_in(body, at);
        if n == 0 {
            return after;
        }
        let next = note::play(group, new, after, word_at(body, at));
        after = next;
        at += n;
    }
}
