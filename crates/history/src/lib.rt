// What a sender keeps: the commands that it has queued, and the requests that wait for it.
//
//   SendHistory, over a lent slice of `size` words:
//
//        head                          last
//         |<---------------- used ---------------->|
//     ..  | h words | h words words | .. | h words |  free  ..      and round the end
//           oldest    oldest + 1           newest
//
//     h is a header: the command's number in the upper half, its count of words in the lower.
//
//   RetransmitQueue, a record with 16 places of which `size` are used: requests, oldest first.
//
//   history   the state, and `state_ok`, the state test; `state_walk` is the same test, and hands on a
//             place that its walk over the headers came by
//   queue     the requests, and `state_ok`
//   tested    what a sender calls once it has made those tests: `push`, `append_to_last`, `index_of`,
//             `write_entry` and their like; `push_request`, `set_front`, `pop`; and, once it has tested
//             the sizes, `clear` and `clear_requests`, which start anew
//   theorems  a command that passes the end gives the bytes that it gives when it does not
//
// A state that fails its test is refused as `InvalidState`. Nothing is shifted: the oldest leave by
// moving the head, and words go in and out as at most two straight runs.
#![tactic(auto)]

mod headers;
pub mod history;
pub mod queue;
mod ring;
pub mod tested;
pub mod theorems;
