// The rules of a pretend link, and what holds of every run of it: no code, but the types that crate `link` hands out.
//
//     load -> console ---- payload ----> line ---- or nothing ----> chamber
//               ^                                                      |
//               +---------------- its payload, in the same step -------+
//
//   run        `Report`, what a run answers where it isn't refused
//   theorems   `steps_done`, `none_refused`, `cleared`, `cases`: each function does nothing, and its contract is the theorem
//
// specs/Link.antt has a step's calls in order (`calls_of`), the step, the run and its answer (`run_answer`), which
// refuses with 9, 7, 8, then 12 for sizes or a budget above 65,536; specs/Arriving.antt has what an end does with a
// payload and what is counted of its answers; specs/Cases.antt has runs computed.
#![tactic(auto)]

pub mod run;
pub mod theorems;
