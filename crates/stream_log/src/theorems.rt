// Theorems as contracts: each of these functions does nothing, and its contract is the theorem.
ghost use Rattle.stream_log.specs.Promise.{Reached, NeverInvalid, Answered, More, StreamPromise};
ghost use Rattle.stream_log.specs.Count.{StreamCounted};
ghost use Rattle.stream_log.specs.Console.{LineEnds};
ghost use Rattle.stream_log.specs.Sentence.{StreamSentence};

// After every list of calls on a fresh stream, refused ones and resets included, each end is what its
// own calls since the start or the last reset leave: it passes the state test, and each part of it
// equals a definition over those calls.
pub fn stream_reached()
    ensures { Reached }
{}

// So no call is refused with 13 for the stream's state, and a reset leaves exactly a fresh stream.
pub fn stream_never_invalid()
    ensures { NeverInvalid }
{}

// What the next call answers equals a definition over the past calls.
pub fn stream_answers()
    ensures { Answered }
{}

// A write answers "more" exactly when the next command in order, a due request first, doesn't fit;
// without "more" no request is due, none waits and no command is unwritten.
pub fn stream_more()
    ensures { More }
{}

// Reading a payload after a write finds what it held before, and then exactly as many whole commands
// as the answer says: a due request, retransmits, repeats and new ones, up to the first that doesn't
// fit.
pub fn stream_counted()
    ensures { StreamCounted }
{}

// Demand 3, second sentence, between resets: each position from 0 to the highest has been handed on at
// most once, and if not handed on lies in a reported loss or is still missing.
pub fn stream_promise()
    ensures { StreamPromise }
{}

// A stream with its payloads is the stream on its calls, and its sender with the payloads is crate
// `delivery`'s console on the calls that these count as, every byte of the payloads.
pub fn line_ends()
    ensures { LineEnds }
{}

// Demand 3 of two streams, a console's and a chamber's: both sentences, when two performances are
// equal, and what repeats alone guarantee.
pub fn stream_sentence()
    ensures { StreamSentence }
{}
