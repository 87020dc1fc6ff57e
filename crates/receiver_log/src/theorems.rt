// Theorems as contracts: each of these functions does nothing, and its contract is the theorem.
ghost use Rattle.receiver_log.specs.Promise.{ReceiverPromise, MissingSpan, NeverInvalid, Reached, Answered};
ghost use Rattle.receiver_log.specs.RequestTimes.{RequestTimes};

// Demand 3, second sentence: whatever arrives, each position from 0 to the highest has been handed
// on at most once, and if not handed on lies in a reported loss or is still missing.
pub fn receiver_promise()
    ensures { ReceiverPromise }
{}

// The window's missing span reaches from the oldest missing position to the newest.
pub fn missing_span()
    ensures { MissingSpan }
{}

// The state that a list of calls leaves passes the state test, and each part of it equals a
// definition over the log.
pub fn receiver_reached()
    ensures { Reached }
{}

// So no call is refused with 13 for the receiver's state.
pub fn never_invalid()
    ensures { NeverInvalid }
{}

// What the next call answers equals a definition over the log.
pub fn receiver_answers()
    ensures { Answered }
{}

// After a new gap and silence requests are due D, then 2D, 4D and on later, M of them; one delay after
// the last the missing span is reported.
pub fn request_times()
    ensures { RequestTimes }
{}
