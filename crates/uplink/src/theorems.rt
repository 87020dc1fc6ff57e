// Theorems as contracts: each of these functions does nothing, and its contract is the theorem.
ghost use Rattle.uplink.specs.Promise.{StepShared, TurnFirst, EachFirstOnce};

// Each step that is not refused: no grant exceeds its want or falls short of the first share, and together
// they are the smaller of A and all wants.
pub fn step_shared()
    ensures { StepShared }
{}

// The division whose turn it is takes all it still wants before any other.
pub fn turn_first()
    ensures { TurnFirst }
{}

// Of as many steps as there are divisions, each division is served first in exactly one.
pub fn each_first_once()
    ensures { EachFirstOnce }
{}
