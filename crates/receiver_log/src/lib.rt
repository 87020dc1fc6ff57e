// The receiver over whole lists of calls: what every list of calls on a fresh receiver leaves and
// answers, said over the log of past calls and their answers alone.
//
//     calls     data command, poll, Retransmit Error, NAK, taking a due request; every argument free
//       |
//     log       (call, answer), newest first, refused calls too
//       |
//     places    position + 65,536:  handed on | in a reported loss | missing | above the highest
//       |
//     answers   class, gap, loss, missing span, request, timer, NAK: of the next call
//
// There is no state and no code here. Each function of `theorems` does nothing, and its contract is
// a theorem about the definitions of crate `receiver`:
//
//   receiver_promise   each position is handed on at most once, and if not, is lost or missing
//   missing_span       the window's missing span reaches from the oldest missing to the newest
//   receiver_reached   the state left passes the state test, and is what the log says
//   never_invalid      no call is refused with 13 for the receiver's state
//   receiver_answers   what the next call answers is what the log says
//   request_times      the times of requests and of the report after a new gap and silence
#![tactic(auto)]

pub mod theorems;
