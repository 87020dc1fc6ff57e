// Records of the loss sheet and blocks of them, and blocks stored by column.
//
//   a record, 16 bytes:   time 8 | number 2 | class 1 | zero 1 | loss count 2 | loss first 2
//
//   columns   columns (16) and its inverse, restore (16)
//   records   the tests of a block, and what is kept of a record, for the sheet
//   bytes     words as bytes, for the sheet
//
// All numbers are big-endian. An answer is 0, or the refusal's number; a refused call changes nothing.
#![tactic(auto)]

pub mod bytes;
pub mod columns;
pub mod records;
