// A pretend link: a console, a line and a chamber in steps of 1 ms, to try settings before a hire.
//
//     load -> console ---- payload ----> line ---- or nothing ----> chamber
//               ^                                                      |
//               +---------------- its payload, in the same step -------+
//
//   turns   what each end does in a step; the line
//   quiet   whether an end rests in a step, so that it is left as it is
//   halves  a step, there and back
//   link    `State`, `step`, and `run`, which is what the programs call
//
// How an end reads a payload, and what is counted of its answers, is crate `link_tally`.
//
// `run` equals `run_answer` of crate `link_rules`, with both lent histories: steps done, commands handed on and losses
// reported. It refuses with 9, 7, 8 for settings, and 12 for sizes that a start does not take or a budget above
// 65,536; a refused run changes nothing. What holds of every run stands there too.
#![tactic(auto)]

mod halves;
pub mod link;
mod quiet;
mod turns;
