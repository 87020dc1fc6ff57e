// A load that can be made again: 32-bit values drawn from a seed, and what each of them asks to send.
//
//   seed -> value -> value -> ..     each is the last times 1664525 plus 1013904223, modulo 2^32
//
//   bit 31        bits 30 to 28          bits 27 to 0
//   | 1: send      | words less one       | not looked at |
//
//   load       `Load`: `draw`, `jump` (n draws at one step, n up to 65,535, in at most 16 rounds), `words`
//   theorems   what holds of whole lists of calls
//
// Nothing is refused: every 32-bit number is a seed, and every 16-bit number a count.
#![tactic(auto)]

pub mod load;
pub mod theorems;
