// The payload reader of the Rust, `CommandPackets`: a thin struct that holds the caller's unread
// bytes, above the cursor of crate `packet`.
//
//   payload:  "MIDI" | header | words .. | header | words .. | 0 to 3 bytes, passed over
//                                        |<------------ rest ------------->|
//
//   packets   command_packets (1), CommandPackets::next; next_at, for callers that hold no reader
//   unread    the work, on plain slices
//   theorems  the reader and the cursor agree on every payload
#![tactic(auto)]

pub mod packets;
pub mod theorems;
mod unread;
