// The sender over whole lists of calls: what every list of calls on a fresh sender leaves and
// answers, said over what it holds as plain lists, with no ring, no numbers that wrap and no counters.
//
//     calls     queue words, Retransmit Request, write; every argument free, refused ones too
//       |
//     book      position of the oldest | written commands | unwritten ones | requests | idle timer
//       |
//     answers   of the next call; of a write also the payload and its bytes
//       |
//     past      every command ever opened, read off the log and the bytes that writes added:
//
//                   0 1 2 ..  left  .. | held: written          | unwritten
//                                      the newest whose words and headers fit
//
// There is no state and no code here. Each function of `theorems` does nothing, and its contract is
// a theorem about the definitions of crate `sender`:
//
//   sender_reached         the state left passes the state test, and is what the calls say
//   sender_never_invalid   no call is refused with 13 for the sender's state
//   sender_answers         what the next call answers is what the calls say
//   more_right             a write answers "more" exactly when a command is left that doesn't fit
//   write_counted          a write adds to a payload what its answer counts, and which commands
//   sender_held            the whole state, from all commands ever opened, the requests and the log
//   idle_times             the due times of the idle commands after data and silence
//   not_started            a start that is refused leaves a sender that every call refuses
#![tactic(auto)]

pub mod theorems;
