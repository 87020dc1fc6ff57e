// Theorems as contracts: each of these functions does nothing, and its contract is the theorem.
ghost use Rattle.packet.specs.Theorems.{CursorWalks, Untouched, ReadsBack};

pub fn cursor_walks()
    ensures { CursorWalks }
{}

pub fn untouched()
    ensures { Untouched }
{}

pub fn reads_back()
    ensures { ReadsBack }
{}
