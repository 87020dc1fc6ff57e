// UMP Data.
ghost use Rattle.std.specs.Prelude.{◌≡◌};
ghost use Rattle.command.specs.Write.{data_written};

use super::message::whole_messages;
use super::refused::refused;
use config::refusal::Refusal;
use config::sequence::SeqNum;
use config::settings::MAX_COMMAND_WORDS;
use packet::writer::{PayloadWriter, Wrote};

// A data command that was read: its number. Its messages are in the command's bytes.
#[derive(Clone, Copy)]
pub struct UmpData {
    pub seq: SeqNum,
}

impl UmpData {
    // 13; 5 for over 64 words, or words that end inside a message; 3, 2.
    pub fn write(p: PayloadWriter, buf: &mut [u8], seq: SeqNum, words: &[u32]) -> Wrote
        ensures { (result, buf.new) ≡ data_written p buf.old seq words.now }
    {
        if !packet::tested::is_valid(p, buf.len()) {
            return refused(p, Refusal::InvalidState);
        }
        if MAX_COMMAND_WORDS < words.len() || !whole_messages(words) {
            return refused(p, Refusal::InvalidUmpData);
        }
        let [high, low] = seq.to_be_bytes();
        packet::tested::command(p, buf, 0xFF, high, low, words)
    }
}
