// A stream over whole lists of calls: 01's "a stream's call counts as those calls of its ends that
// it makes".
//
//     calls of a stream      send_ump, on_retransmit_request, on_ump_data, on_retransmit_error,
//        |          |        on_retransmit_nak, poll, write_request, write_data, next_deadline,
//        |          |        wants_write, reset; every argument free, refused ones too
//        |          |
//     received    sent       the calls of each end since the start or the last reset, in order; a
//        |          |        write is a take, and then the sender's write unless the take is refused
//        |          |        or finds no space
//     receiver_log  sender_log
//
// There is no state and no code here. Each function of `theorems` does nothing, and its contract is
// a theorem about the definitions of crate `stream`:
//
//   stream_reached         each end is what its own calls leave, and is what they say
//   stream_never_invalid   no call is refused with 13 for the stream's state; a reset is a fresh start
//   stream_answers         what the next call answers is what the past calls say
//   stream_more            a write answers "more" exactly when the next command doesn't fit
//   stream_counted         a write adds to a payload what its answer counts, and which commands
//   stream_promise         the contract's second sentence, between resets
//   line_ends              with its payloads a stream is an end of crate `delivery`'s line
//   stream_sentence        so both sentences of the contract, and its equalities, hold of two streams
//
// proofs/Example.antt has two streams that meet all premises, with a payload that is lost, asked for
// and retransmitted; proofs/Covered.antt names every call and size that the theorems are said of.
#![tactic(auto)]

pub mod theorems;
