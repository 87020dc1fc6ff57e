// Theorems as contracts: the function does nothing, and its contract is the theorem.
ghost use Rattle.c_sending.specs.Exports.{NotQueuedKeeps};

// Where no words were queued, nothing that was lent has changed.
pub fn not_queued_keeps()
    ensures { NotQueuedKeeps }
{}
