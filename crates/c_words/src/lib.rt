// What the crates of C functions share: words that a caller lends, and what is tested before a call is made.
//
//   settings   eight words, T1 G K R X D M SIZE, and their number: 0, or why they are refused
//   payload    a payload that is being written, two words: its length and its limit
//   guard      13, the number of words that no state has
//   lent       storing words, where they differ
//
// Functions that load ask for words that have passed the test beside them, and functions that store for as many words
// as there are; a C function tests first.
#![tactic(auto)]

pub mod guard;
pub mod lent;
pub mod payload;
pub mod settings;
