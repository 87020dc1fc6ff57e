// A stream as C functions, which include/sirmjold.h declares.
//
//   exports    new, reset, send_ump, what arrives, poll, questions, write_data
//   event_word an event as one word, which a poll passes within
//   theorems   a call of one end is the library's call on the whole stream; a refused call changes nothing
//
// A stream is words in an array that the caller lends (crate c_state): they are loaded, the library's call is made, and
// what that leaves is stored. A data command that arrives and a poll are made on the words: where they change nothing,
// nothing is stored. Nothing is asked of a caller but pointers to arrays that do not overlap: settings are refused by their
// own numbers, then words that no state has as 13, and nothing is changed (crate c_words). Answers are numbers (crate
// c_answers).
#![tactic(auto)]

mod event_word;
pub mod exports;
pub mod theorems;
