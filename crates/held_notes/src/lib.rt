// The held notes of one group, above the stream: which notes a chamber sounds, so that a loss or a
// restart can silence them. It sees the stream's answers and nothing else of it.
//
//     held:  | word 0: channel 0, notes 0 to 63 | word 1: channel 0, notes 64 to 127 | word 2: channel 1 | ..
//
//     New    an on holds, a release releases       | in order: a loss first, then the messages
//     Late   a release releases, an on does not    |
//     Duplicate, refused, no loss                  nothing changes
//     loss, restart                                all held notes are given, and none is held
//
//   held      `start`, `delivered`, `told`, `restarted`: 12 when the group is above 15
//   listing   notes by value, by channel, then note
//   theorems  held exactly when: after every list of calls
//
// What one message does is crate `notes`. What the stream's promise adds, no held note's release is known
// lost and no pipe sounds on, is in crate `held_log`: a chamber needs neither sender nor delivery.
#![tactic(auto)]

pub mod held;
pub mod listing;
mod note;
mod set;
pub mod theorems;
mod walk;
