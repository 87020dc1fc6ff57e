// One uplink for up to eight divisions: how many words of a step each of them is granted.
//
//   wants    10   50   60      each division's, in words; A is 100, so a first share is 33
//   first    10   33   33      the smaller of want and share; 24 words are left
//                      ^       they go round from the turn, each division taking all it still wants
//   grants   10   33   57      together the smaller of A and all wants; the next turn is 0
//
//   grants     `grant`: a step of the uplink, by the definition
//   theorems   what every step keeps, and how the turn goes round
//
// There is no state but the turn, which the caller keeps: it gives the turn that the step before
// answered, at first 0. Refused by 18, with the turn as it was: no divisions, more than eight, or a turn
// that is not one of them.
#![tactic(auto)]

pub mod grants;
pub mod theorems;
