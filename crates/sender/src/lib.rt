// The send direction of a data stream: words are queued as numbered commands, kept for repeats and
// retransmits, and requests for them wait until the next write.
//
//                 +------------------- Sender --------------------+
//   words         |  history   commands, oldest first             |
//                 |            | written ........ | unsent ..... |  a queue call adds at this end
//   request       |  queue     requests that wait                 |
//                 |  idle      when the next idle command is due  |
//                 +-----------------------------------------------+
//
// The history's words lie in a slice that the caller lends, here `ring`. Times are given by the
// caller, in ms. Settings are given with each call. The idle schedule is crate `idle`, how words divide
// into messages and commands crate `fronts`, and the write crate `writing`.
//
//   sender    the entry points: 9, 7, 8 for settings, then 13 for a state that no call has left; 5, 3
//             and 6 for words that are not queued; 12 for sizes that a start does not take
//   tested    the same over settings and a state that were tested; `is_valid` is the state test
#![tactic(auto)]

pub mod sender;
pub mod tested;
