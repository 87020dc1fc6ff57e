// A receive window alone as C functions, which include/sirmjold.h declares.
//
//   exports    a window that starts after a number, and a number that arrives
//   theorems   a refused call changes nothing that was lent
//
// A window is four words in an array that the caller lends: it is loaded, the library's call is made, and what that leaves
// is stored. Nothing is asked of a caller but a pointer to an array: words that are no window's are refused as 13, and
// nothing is changed.
#![tactic(auto)]

pub mod exports;
pub mod theorems;
