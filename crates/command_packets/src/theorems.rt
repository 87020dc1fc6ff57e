// A theorem as a contract: the function does nothing, and its contract is the theorem.
ghost use Rattle.command_packets.specs.Theorems.{ReadersAgree};

pub fn readers_agree()
    ensures { ReadersAgree }
{}
