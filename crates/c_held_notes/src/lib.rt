// Held notes as C functions, which include/sirmjold.h declares. A state is a value and so is the answer;
// the stream's answer is given by those of its numbers that matter here.
#![tactic(auto)]

pub mod exports;
