// Theorems as contracts: each of these functions does nothing, and its contract is the theorem.
ghost use Rattle.link_rules.specs.Steps.{StepsDone};
ghost use Rattle.link_rules.specs.NoneRefused.{NoneRefused};
ghost use Rattle.link_rules.specs.Cleared.{Cleared};
ghost use Rattle.link_rules.specs.Cases.{Runs};

// With settings and sizes that a start takes, a run does all the steps of its budget, up to 65,536; 12 above that.
pub fn steps_done()
    ensures { StepsDone }
{}

// No call of any step of any run is refused: not one list of the load's words is dropped.
pub fn none_refused()
    ensures { NoneRefused }
{}

// Where requests are enabled and D is at least 1, nothing is missing D × (2^(M+1) - 1) steps after the last new
// gap, once that step has polled, if the run lasts so long.
pub fn cleared()
    ensures { Cleared }
{}

// Runs computed from the definition; one of them meets the bound, and no step before.
pub fn cases()
    ensures { Runs }
{}
