// The receive direction of a data stream: what arrives is classified by the receive window, and what
// is missing is asked for again, up to a limit, and then reported lost.
//
//                 +------------------ Receiver -----------------+
//   data command  |  window   which numbers were processed      |  class, gap, loss
//   poll          |  timer    when the next request is due      |  loss
//   error, NAK    |  request_due, asked, refused                |  loss
//   take          +---------------------------------------------+  Retransmit Request in a payload
//
// Times are given by the caller, in ms; a clock may go back. Settings are given with each call.
//
//   receiver   the entry points: 9, 7, 8 for settings, then 13 for a state that no call has left
//   tested     the same over settings and a state that were tested
//   messages   what of a heard command is handed on
#![tactic(auto)]

pub mod messages;
pub mod receiver;
pub mod tested;
