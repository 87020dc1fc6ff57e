// The loss sheet over whole lists of blocks, and blocks stored and restored.
//
//     blocks    any bytes, with any output; refused ones between
//       |
//     file      the accepted ones, joined: all arrivals so far
//       |
//     figures   of the next block, worked afresh over the last n of these
//
// There is no state and no code here. Each function of `theorems` does nothing, and its contract is
// a theorem about the definitions of crates `sheet_blocks` and `loss_sheet`:
//
//   runs_on    the figures run on across blocks, and 13 refuses just the states that no calls have left
//   restores   columns and `restore` are inverse, both ways
#![tactic(auto)]

pub mod theorems;
