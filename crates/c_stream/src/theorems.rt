// Theorems as contracts: each function does nothing, and its contract is the theorem.
ghost use Rattle.c_stream.specs.Theorems.{OneEnd, RefusedKeeps};

// A call of one end leaves the words of the other, and is the library's call on the whole stream.
pub fn one_end()
    ensures { OneEnd }
{}

// A refused call changes nothing that was lent, but for number 3 of a write, by which a sender's
// command does not fit: that leaves the payload's words and bytes.
pub fn refused_keeps()
    ensures { RefusedKeeps }
{}
