// The loss sheet: figures over the last n arrivals of a file. Records and blocks are crate `sheet_blocks`.
//
//   a record's figures, 16 bytes:   New 4 | Late 4 | Duplicate 4 | sum of loss counts 4
//
//   Sheet, over a lent ring of `n` words, class * 65,536 + loss count for each arrival held:
//
//        head                              head = 0, len < n
//     .. | oldest .. | and round the end   | oldest .. newest | 0 .. 0 |
//
//   sheet     start (12), Sheet::block (12, 13, 16, 17, tested in this order)
//
// All numbers are big-endian. An answer is 0, or the refusal's number; a refused call changes nothing. The figures of the words held are worked
// out once in a call and kept while the block goes by.
#![tactic(auto)]

mod figures;
pub mod sheet;
