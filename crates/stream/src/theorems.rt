// Theorems as contracts: the function does nothing, and its contract is the theorem.
ghost use Rattle.stream.specs.Theorems.{WriteCallsEnds};
ghost use Rattle.stream.specs.Sending.{SendAndWriteCallsBoth};

// A write that passes its tests is the receiver's call that takes a due request, and then the
// sender's write.
pub fn write_calls_ends()
    ensures { WriteCallsEnds }
{}

// Queueing and writing in one call is `send_ump` and then `write_data`, and the tests of settings and
// of the sender's state that the second would make pass.
pub fn send_and_write_calls_both()
    ensures { SendAndWriteCallsBoth }
{}
