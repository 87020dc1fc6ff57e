// What every layer of the data stream shares: sequence numbers, times, the reasons of a refusal, and
// the settings.
//
//   answer     0 for a call that is done, or the number of its refusal
//   sequence   16-bit numbers that go round: 65,535 is followed by 0
//   time       64-bit ms that do not go round: a sum stops at the last one
//   refusal    one case for each reason, and the number that the papers give it
//   settings   `StreamConfig`, its `DEFAULT` and its `check`
//
// Nothing here has a state. A call that is given settings tests them first, by `check`.
#![tactic(auto)]

pub mod answer;
pub mod range;
pub mod refusal;
pub mod sequence;
pub mod settings;
pub mod time;
