// Theorems as contracts: each function does nothing, and its contract is the theorem.
ghost use Rattle.c_state.specs.Theorems.{LoadsBack, StoresBack, StoredFits, LeftNarrow};

// A stream that is stored and loaded is the same stream.
pub fn loads_back()
    ensures { LoadsBack }
{}

// Words that are loaded and stored are the same words.
pub fn stores_back()
    ensures { StoresBack }
{}

// Words that are stored are taken for a stream.
pub fn stored_fits()
    ensures { StoredFits }
{}

// No call leaves a stream that has no words.
pub fn left_narrow()
    ensures { LeftNarrow }
{}
