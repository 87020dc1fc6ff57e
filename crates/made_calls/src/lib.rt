// Makes a call of the script (crate `script`) by the C functions that customers link (crates c_codec and c_stream), on
// words in arrays as a C caller lends them, and prints what it answers.
//
//   caller    the words and bytes that are lent to calls, and what is held between two of them
//   run       finds the function of a call: codec has those on the payload, streams those on the stream
//   numbers   what a C function answers, as an entry of the table of answers
//   show      the line of an answer: reading has the payloads that are read for it
//   loaded    what C has no function for: state, window and next
//
// Nothing is refused here but by the library.
#![tactic(auto)]

pub mod caller;
mod codec;
mod loaded;
mod numbers;
pub mod reading;
pub mod run;
pub mod show;
pub mod streams;
