// Hearing a whole payload in one call as a C function, which include/sirmjold.h declares.
//
//   payload:  "MIDI" | header | words .. | header | words .. | ..
//                    ^ at                          ^ next, where `heard` has no room for its answer
//   heard:    | place | as read | answer, two words | place | ..     four words for each command
//
//   figures    what was read, and what was answered, in words
//   given      a command is given to its end, by the call that there is for it
//   walk       one command after the other
//   exports    hear
//   theorems   a refused call changes nothing; two calls are one with the room of both; a payload computed
//
// Settings and words are tested once for all commands, and no command's words are copied. A stream is the words of crate
// c_stream's calls, and stands beside them, as crate c_sending does.
#![tactic(auto)]

pub mod exports;
mod figures;
mod given;
pub mod theorems;
mod walk;
