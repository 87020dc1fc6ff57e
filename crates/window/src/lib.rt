// The receive window of a data stream: which sequence numbers were processed, and which are lost.
//
//        oldest                       newest   highest
//     .. | size | .. |  3  |  2  |  1  |          0          positions, as how far behind
//     all before     each processed or missing    processed
//     processed
//
//   window   the state `ReceiveWindow`, and every operation on it: `new`, `starting_at`, `reset`, `classify`,
//            `accept`, `is_processed`, `missing`, `request`, `mark_all`, `mark_range`
//   tested   the state test, and over a state that was tested: what is missing or processed, starting, marking
//   arrival  over a state that was tested: a number arrives, in the parts of `accept`, and `classify`
//   span     from positions to numbers
//   set      the processed positions, as two 64-bit words
//
// Starting refuses 12, a size that is not 1 to 128. Each other operation refuses 13, a state that no call has left:
// its size is not one that starting takes, or a position outside the size is set. A refused call changes nothing.
#![tactic(auto)]

pub mod arrival;
pub mod set;
mod span;
pub mod tested;
pub mod window;
