// Payloads as C functions, which include/sirmjold.h declares.
//
//   exports    an empty payload, writing a command after what a payload holds, reading a received one
//   theorems   a refused call changes nothing that was lent
//
// A payload that is being written is two words and a buffer that the caller lends: the words are loaded, the library's
// call is made, and what that leaves is stored. Nothing is asked of a caller but pointers to arrays that do not overlap:
// words that are no payload's are refused as 13, and nothing is changed. A received payload is read by place, one call for
// each command.
#![tactic(auto)]

pub mod exports;
pub mod theorems;
