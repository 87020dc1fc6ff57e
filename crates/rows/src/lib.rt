// Rows: commands of the send history written into a payload one after the other, up to the first that
// does not fit, and which of them are written.
//
//   history:  .. | entry | entry | entry | entry | ..
//                        |<-- a row, from a header on -->|
//   payload:  | what it holds | command | command | .. |
//
// The history's words lie in a slice that the caller lends, here `ring`. Nothing here has a state.
//
//   rows    `Row`, what a row has come to; how far a request reaches
//   tested  rows of entries, the row of an error, and the entries that are repeated, over a payload and
//           entries that were tested, for the sender
#![tactic(auto)]

pub mod rows;
pub mod tested;
