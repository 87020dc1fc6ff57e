// The idle schedule: when commands without words are due after the last one with words, so that the
// other end notices what it has missed.
//
//   the command   1 + R at steps of T1        K more, each step G times the one before
//   |---------|---------|---------|-----------------|---------------------------------|   off
//
// A schedule has no clock: times are given by the caller, in ms, and so are the settings.
//
//   idle    `Idle`, a schedule that runs: its start, its state test, and whether a command is due
//   tested  the next step, over settings and a timer that were tested
#![tactic(auto)]

pub mod idle;
pub mod tested;
