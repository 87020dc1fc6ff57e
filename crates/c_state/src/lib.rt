// A stream as words in an array that the caller lends, for C.
//
//   receiver   0, 1   the window's set, the newest position in the lowest bit
//              2, 3   the set's upper words: 0
//              4      the timer's due time
//              5      highest | window size | asked number | asked count
//              6      requests sent, 8 bits, and above them the flags: timer runs, request due,
//                     refused, asked
//   sender     7      head | used | count | oldest, of the history
//              8      last | size, of the history | unsent | unsent words
//              9      head | length, of the queue | idle step | the queue's size, 8 bits, and above it
//                     the flag: idle timer waits
//             10      when the next idle command is due
//             11      the idle step's length
//             12..19  the queue's 16 requests, two to a word: number | count | number | count
//
// Figures between bars have 16 bits, the first the lowest. The figures of a timer, a request or an
// idle timer that is not there are 0.
//
// A figure's width is its test. What is left to test are the set's upper words, a flag that is none,
// and figures beside a flag that is not set (`fits`); then the words are those of a stream, and no
// other words are. That a stream's figures agree with each other is the library's own test (13).
//
//   pack                        figures in a word, and out of it
//   receiver_part, sender_part  the words of one end, by their places
//   state                       the words of a stream: a call of one end looks at that end's alone
//   receiving                   a receiver's frequent calls on its words
//   theorems                    a stream that is stored and loaded is the same, and so are words; no
//                               call leaves a stream that has no words
#![tactic(auto)]

pub mod pack;
mod receiver_part;
pub mod receiving;
mod sender_part;
pub mod state;
pub mod theorems;
