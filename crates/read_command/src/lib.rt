// A received payload, one command with each call: what it is, its words, and the lengths of its
// messages, in arrays that the caller lends.
//
//   payload:  "MIDI" | header | words .. | header | words .. |
//                             ^ next
//   words:    | the command's words ........................ |
//   lens:     | 1 | 2 | 1 | ..     how many words each whole message of a data command has
//
//   next    `next`, the one entry point: 13 when an array is shorter than the longest command, 1 when
//           the payload does not begin with the signature, 10 for a request or an error without its word
//   words   words in order, and how they divide into messages
//
// It is made of `packet` and `command`, for callers to whom each step is a call that costs something.
#![tactic(auto)]

pub mod next;
mod words;
