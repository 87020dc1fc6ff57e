// The write of a sender: requests that wait are served, a due idle command is queued, and up to R of the
// last written commands are repeated before the new ones.
//
//   sender    | history: written .. | unsent .. |   requests that wait   idle
//                    |          |        |               |
//   payload   | what it holds | retransmits | repeats | new commands |
//
//   writing   the entry point: 9, 7, 8 for settings, then 13 for a state or a payload that no call has
//             left, and 3 for a first new command that no payload of this size takes
//   tested    the same over settings, a state and a payload that were tested, for the stream
//   placing   where a write walks from: the state test that hands on a mark, and the mark after words
//             were queued
#![tactic(auto)]

pub mod placing;
pub mod tested;
pub mod writing;
