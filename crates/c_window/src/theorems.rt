// A theorem as a contract: the function does nothing, and its contract is the theorem.
ghost use Rattle.c_window.specs.Theorems.{RefusedKeeps};

// A refused call changes nothing that was lent.
pub fn refused_keeps()
    ensures { RefusedKeeps }
{}
