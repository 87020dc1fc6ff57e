// Theorems as contracts: each of these functions does nothing, and its contract is the theorem.
ghost use Rattle.sender_log.specs.Promise.{Reached, NeverInvalid, Answered, More, NotStarted};
ghost use Rattle.sender_log.specs.Idle.{IdleTimes};
ghost use Rattle.sender_log.specs.Counted.{Counted};
ghost use Rattle.sender_log.specs.Past.{Held};

// The state that a list of calls leaves passes the state test, and each part of it equals a
// definition over the calls.
pub fn sender_reached()
    ensures { Reached }
{}

// So no call is refused with 13 for the sender's state.
pub fn sender_never_invalid()
    ensures { NeverInvalid }
{}

// What the next call answers equals a definition over the calls.
pub fn sender_answers()
    ensures { Answered }
{}

// A write answers "more" exactly when a command is left that doesn't fit behind those it wrote;
// without "more" no request waits and no command is unwritten.
pub fn more_right()
    ensures { More }
{}

// After data and silence 1 + R idle commands are due at steps of T1, then K at steps that grow by G,
// and then none.
pub fn idle_times()
    ensures { IdleTimes }
{}

// A start that is refused leaves a sender that every call refuses with 13.
pub fn not_started()
    ensures { NotStarted }
{}

// Reading a payload after a write finds what it held before, and then exactly as many whole commands
// as the answer says: retransmits, repeats and new ones in order, up to the first that doesn't fit.
pub fn write_counted()
    ensures { Counted }
{}

// The history holds the longest end of all commands ever opened that fits; those are read off the
// past calls, their answers and the bytes that writes added. The waiting requests and the idle timer
// follow from the same log.
pub fn sender_held()
    ensures { Held }
{}
