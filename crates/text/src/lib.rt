// Text: lines of input that is read in blocks, the fields of a line, and output.
//
//   input blocks -> lines -> fields -> figures and words        figures and words -> out -> output block
//
//   blocks   reads blocks of input that have no lines
//   lines    gathers the bytes of a line, and takes its end off
//   fields   reads a line's fields: figures, bytes and words
//   forms    reads a line by a table of calls, and prints a line of a table of answers
//   out      adds bytes and digits to a block of output, which is written when it is full
//
// Nothing here knows a call or a stream. A field that is not right has no value: reading answers None. A public
// function asks nothing of its caller but, where it takes a function, that this one may be called.
#![tactic(auto)]

pub mod blocks;
pub mod fields;
pub mod forms;
pub mod lines;
pub mod out;
