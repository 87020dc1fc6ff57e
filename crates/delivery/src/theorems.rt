// Theorems as contracts: each of these functions does nothing, and its contract is the theorem.
ghost use Rattle.delivery.specs.Sentence.{Contract, HandedWords};
ghost use Rattle.delivery.specs.Repeats.{RepeatsAlone};
ghost use Rattle.delivery.specs.Paced.{PacedSender};
ghost use Rattle.delivery.specs.Take.{Takes};

// Demand 3, both sentences. First: if all that was accepted is written, the sender's newest position,
// if any, is heard, no loss is reported and nothing is missing, then what is handed on, joined in
// order of command position, is the accepted message list. Second: whatever arrives, each position is
// handed on at most once, and if not handed on lies in a reported loss or is still missing.
pub fn contract_sentence()
    ensures { Contract }
{}

// What the program hands on of a command that is heard on the line, its whole messages, is all of its
// words.
pub fn handed_words()
    ensures { HandedWords }
{}

// What repeats alone guarantee (02, 14/14). Let each written payload bring exactly one new command and
// hold, oldest first, all of the last R written before it, or all written where these are fewer, and no
// other data commands. Let payloads arrive unchanged and in order, perhaps repeated straight after
// themselves, no more than R in a row lost and the last arriving. Then the receiver hands on each
// command in order, none of them Late and none with a gap, and reports no loss; what it hands on is
// what was written, position by position.
pub fn repeats_alone()
    ensures { RepeatsAlone }
{}

// When our sender keeps to that: one command of at most s words for each write, no requests, payloads of
// at least 4 + (R + 1)(4 + 4s) bytes, each opened empty for its write, and a history of at least
// (R + 1)(1 + s) words.
pub fn paced_sender()
    ensures { PacedSender }
{}

// A receiver's take leaves payload and bytes as they were, or writes exactly one Retransmit Request.
pub fn take()
    ensures { Takes }
{}
