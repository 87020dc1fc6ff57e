// Theorems as contracts: each of these functions does nothing, and its contract is the theorem.
ghost use Rattle.sheet_log.specs.Calls.{RunsOn};
ghost use Rattle.sheet_log.specs.Restores.{Restores};

// Columns and `restore` are inverse, both ways.
pub fn restores()
    ensures { Restores }
{}

// Over every list of blocks from a start: the figures are those worked afresh over all arrivals, and
// 13 refuses just the states that no calls have left.
pub fn runs_on()
    ensures { RunsOn }
{}
