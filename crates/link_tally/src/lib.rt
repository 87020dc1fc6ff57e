// An end of the pretend link reads a payload, and what is counted of its answers.
//
//     payload ----> stream ----> answers:   commands handed on, losses, the error that waits
//
//   arriving  `Tally`, an end and its counts; `arrive`, over a payload of at most 1,400 bytes, for the link
#![tactic(auto)]

pub mod arriving;
