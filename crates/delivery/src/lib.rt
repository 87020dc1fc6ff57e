// The contract sentence: a change played is handed to the chamber once, or lies in a reported loss.
// Sender, payloads, line and receiver together, over whole lists of calls at both ends.
//
//     console                            line                        chamber
//     accepted  A B D                                                handed on  A B D
//        |                                                              ^
//     queued,   0:A 1:B 2:D   written    payload bytes     heard     position by position
//        v                       |       any payload, any    |          |
//     positions of the data      +----->  moment, any  ------+       New or Late; a repeat
//     commands that writes add            order, often or never      is a Duplicate
//
// A console's calls open payloads, lend their buffers again, queue words, take requests, write the
// stream and other commands; refused calls are among them. What is heard is a data command that
// reading the bytes of some payload at some moment finds, within reach of the highest heard.
//
// There is no state and no code here. Each function of `theorems` does nothing, and its contract is a
// theorem about the definitions of crates `sender` and `receiver`:
//
//   contract_sentence   demand 3, both sentences; when two performances are equal (02, 13/14)
//   handed_words        the program hands on all words of a command that is heard on the line
//   repeats_alone       what repeats alone guarantee, without a return cable (02, 14/14)
//   paced_sender        when our sender's payloads are as that asks
//   take                a receiver's take leaves a payload as it was, or writes one Retransmit Request
//
// proofs/Covered.antt shows that the theorems are said of every call, size and refused call.
// proofs/Example.antt has a run that meets all premises, with a lost, a repeated and a retransmitted
// payload, one that is sent at two moments, and refused calls; proofs/Reach.antt shows what a command
// out of reach would do. proofs/RepeatsExample.antt has a run on repeats alone; proofs/PacedExample.antt
// shows what a history or a payload with too little room would do.
#![tactic(auto)]

pub mod theorems;
