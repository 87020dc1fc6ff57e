// How words divide into messages and commands: a command takes the front of what is left, the whole
// messages that have at most the set size together.
//
//   tested  how many words a front has, whether every message fits, and how many commands there are,
//           over words that were tested to be whole messages, for the sender
#![tactic(auto)]

pub mod tested;
