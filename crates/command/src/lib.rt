// The commands of the data stream (M2-124-UM, 7.1 and 7.2), over the packets of crate `packet`.
//
//   FF  UMP Data             number | whole messages, at most 64 words where we write
//   80  Retransmit Request   number | count, 0
//   81  Retransmit Error     reason, 0 | number, 0
//
// A number that stands in a word is its upper half; the lower half is written 0 and ignored on
// reading. Every other code is handed on raw.
//
//   message     how many words a message has, whole messages, and a walk over them
//   data        UmpData::write (13, 5, 3, 2)
//   retransmit  RetransmitRequest::write (13, 3, 2), RetransmitError::write (13, 11, 3, 2)
//   parse       what a received command is (10)
//   tested      writing into a payload that has passed the state test
//   theorems    reading gives back what was written
#![tactic(auto)]

pub mod data;
pub mod message;
pub mod parse;
mod refused;
pub mod retransmit;
pub mod tested;
pub mod theorems;
