// Theorems as contracts: each function does nothing, and its contract is the theorem.
ghost use Rattle.c_hearing.specs.Theorems.{RefusedKeeps, HearsBoth, GoesOn};

// A refused call changes nothing that was lent.
pub fn refused_keeps()
    ensures { RefusedKeeps }
{}

// Data and a request in one payload, heard in one call and in two.
pub fn hears_both()
    ensures { HearsBoth }
{}

// Two calls, the second from where the first had no more room, are one call with the room of both.
pub fn goes_on()
    ensures { GoesOn }
{}
