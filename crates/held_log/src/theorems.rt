// Theorems as contracts: a function here only calls the theorems that its own rests on, and its
// contract is the theorem.
ghost use Rattle.held_log.specs.Theorems.{HeldUnreleased, HeldHandedOn, HeldAccepted};
ghost use Rattle.held_log.specs.Cases.{HeldCases};

use delivery::theorems::{contract_sentence, handed_words};
use receiver_log::theorems::{receiver_answers, receiver_promise};

// No held note's release is known lost: whatever arrives, each position above its on's, up to the
// highest, was handed on without releasing it or is still missing.
pub fn held_unreleased()
    ensures { HeldUnreleased }
{
    receiver_answers();
    receiver_promise();
}

// Whatever arrives, each held note is one that the messages handed on, in order of position, leave
// held.
pub fn held_handed_on()
    ensures { HeldHandedOn }
{
    receiver_answers();
    receiver_promise();
}

// No pipe sounds on: under demand 3's premises each held note is one that the accepted messages, in
// order of position, leave held.
pub fn held_accepted()
    ensures { HeldAccepted }
{
    receiver_answers();
    contract_sentence();
    handed_words();
}

// Two notes as a list; a release that is Late, and one that is a Duplicate.
pub fn held_cases()
    ensures { HeldCases }
{}
