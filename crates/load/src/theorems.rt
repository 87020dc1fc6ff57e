// Theorems as contracts: each function does nothing, and its contract is the theorem.
ghost use Rattle.load.specs.Theorems.{MadeAgain, FewRounds};

// After any list of draws and jumps the load is where as many single draws lead, and goes on from there
// with the seed's own values.
pub fn made_again()
    ensures { MadeAgain }
{}

// A jump over up to 65,535 draws takes at most 16 rounds.
pub fn few_rounds()
    ensures { FewRounds }
{}
