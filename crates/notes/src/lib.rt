// What one message does to the notes of a group: 02's 4/14 over a first word, and nothing else. Crate
// `held_notes` plays messages with it.
//
//   first word:  | type 4 | group 4 | status 4 | channel 4 | note 8 | velocity 8 |
//
//   message   `is_ours`, `is_on`, `is_off`, `note_of`
//
// There is no state, and nothing is refused.
#![tactic(auto, unfolding(crate::specs::Notes::is_ours, crate::specs::Notes::is_on, crate::specs::Notes::is_off, crate::specs::Notes::note_of))]

pub mod message;
