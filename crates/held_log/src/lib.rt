// Held notes over whole lists of calls: what the stream's theorems say of crate `held_notes`.
//
//     a receiver's log      each data command with its answer, each poll, Retransmit Error and NAK
//        |                  with its event
//     calls_of              those answers, given to `held_notes`, after a start or a restart
//        |
//     held_in               is the note held
//
// There is no state and no code here. Each function of `theorems` only calls the theorems that it
// rests on, if any, and its contract is a theorem:
//
//   held_unreleased   whatever arrives: no held note's release is known lost
//   held_handed_on    whatever arrives: what was handed on, in order of position, leaves it held
//   held_accepted     under demand 3's premises: what was accepted leaves it held
//   held_cases        computed: two notes as a list, a release that is Late and one that is a Duplicate
//
// proofs/Example.antt has a run that meets demand 3's premises, with a held note, and one for which
// the converse of the third is false.
#![tactic(auto)]

pub mod theorems;
