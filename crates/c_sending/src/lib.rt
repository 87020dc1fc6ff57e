// Queueing and writing in one call as a C function, which include/sirmjold.h declares.
//
//   exports    send_and_write
//   theorems   where no words were queued, nothing has changed
//
// A stream is the words of crate c_stream's calls, and stands beside them: in an archive of its own the compiler inlines queueing and writing into this one call, and those of
// c_stream stay as they are.
#![tactic(auto)]

pub mod exports;
pub mod theorems;
