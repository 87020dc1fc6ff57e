// Theorems as contracts: each of these functions does nothing, and its contract is the theorem.
ghost use Rattle.held_notes.specs.Theorems.{HeldKept, HeldExactly, HeldRefused};

// What a state holds after any list of calls, and what a next call gives, is what these say.
pub fn held_kept()
    ensures { HeldKept }
{}

// A note is held exactly when an on for it was delivered New since the last loss or restart, and no
// release for it after that.
pub fn held_exactly()
    ensures { HeldExactly }
{}

// A start for a group above 15 is refused, and every call after it: none is ever held or given.
pub fn held_refused()
    ensures { HeldRefused }
{}
