// Both ends of a data stream in one value: what this side sends, and what it hears.
//
//                        +-------- DataStream --------+
//   words, requests      |  sender                    |
//   data, errors, NAK    |  receiver                  |  deliveries, events
//   write                +----------------------------+  a due request, then the sender's commands
//
// A call of one end is that end's call, and the other end stays as it was. `new`, `reset`,
// `next_deadline`, `wants_write` and `write_data` use both. The send history lies in a slice that the
// caller lends, here `ring`. Times are given by the caller, in ms. Settings are given with each call.
//
//   stream    the entry points: 9, 7, 8 for settings, then 13 for states that no call has left; 12 for
//             sizes that a start does not take; 5, 3 and 6 for words that are not queued; 3 for a
//             write in which nothing fits
//   sending   queueing and writing in one call
//   tested    the same over settings and states that were tested
//   theorems  a write is made of the calls of its ends; queueing and writing in one call is those two
#![tactic(auto)]

pub mod sending;
pub mod stream;
pub mod tested;
pub mod theorems;
