// UDP payloads of Network MIDI 2.0 (M2-124-UM, 5.1 to 5.4): writing command packets, and reading
// them back.
//
//   "MIDI" | header | words .. | header | words .. |
//      4   |    4   |   4 * n  |
//
//   header: command code, number of words n, two bytes that belong to the command
//
// All numbers are big-endian. A payload is a value (`PayloadWriter`) over a buffer that the caller
// lends with each call; reading is a value too (`Cursor`) over the received bytes.
//
//   writer   PayloadWriter::new (4), PayloadWriter::command (13, 3, 2, 4)
//   cursor   command_packets (1), Cursor::next, body, word
//   tested   writing into a payload that has passed the state test
//   theorems what holds of all payloads
//
// A refused call writes nothing. No call writes at or past the new length, nor below the old one,
// but for the signature, which comes with the first command.
#![tactic(auto)]

mod bytes;
pub mod cursor;
pub mod tested;
pub mod theorems;
pub mod writer;
