// Theorems as contracts: each of these functions does nothing, and its contract is the theorem.
ghost use Rattle.command.specs.Calls.{RoundTrips, Untouched};
ghost use Rattle.command.specs.Messages.{MessagesWalk};

// Reading a payload gives back every command that was accepted into it.
pub fn round_trips()
    ensures { RoundTrips }
{}

// A write call touches no other byte of the buffer than those of its command and the signature.
pub fn untouched()
    ensures { Untouched }
{}

// A walk over a data command's words gives its whole messages, in order, and the cut mark.
pub fn messages_walk()
    ensures { MessagesWalk }
{}
