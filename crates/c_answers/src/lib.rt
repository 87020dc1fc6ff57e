// Answers as numbers, for C: what a call of a stream or of a window answers, in a struct of at most 16 bytes (modules
// `answers`, and `sending` for queueing and writing in one call).
//
// Each function takes what a call of the library answers. `refusal` is 0, or 01's number of a refusal, and then every other field
// is 0, but for `queued` of the last. Which case an answer is stands in `kind`, and what the case holds in the other
// fields, which are 0 where it holds nothing. Nothing is refused here.
#![tactic(auto)]

pub mod answers;
pub mod sending;
