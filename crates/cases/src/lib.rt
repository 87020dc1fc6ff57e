// 01's session cases that are marked P, as one table of the definitions, its idle times, what its state test
// says of payloads and histories that no call leaves, and single lines of the definitions, computed: how many
// words a command has, the reasons of an error, places past a ring's end, what is read at a payload's end,
// messages, a stream's answers, and how a stream and a window lie in words.
//
// There is no state and no code here. Each function of `theorems` does nothing, and its contract is a
// theorem:
//
//   session_cases   P1 to P12 (specs/Cases.antt, `Table`)
//   payload_test    13 for a payload whose length or limit no call leaves
//   words_test      255 words are written, and 256 refused with 4
//   reasons_test    reason 1 is written, and 2 refused with 11
//   history_test    13 for a history with a header that no call leaves, the newest too
//   ring_test       places past a ring's end, and words that are stored and read round it
//   read_test       what is read at a payload's end and past it
//   messages_test   how words divide into messages by their types, the last one cut; a walk over them
//   stream_test     what a stream hears stays with it; a request is counted; 13 behind queued words too
//   numbers_test    a stream's answers as numbers for C
//   layout_test     how a stream and a window lie in words
//   idle_times      when idle commands are written after data at 0
//
// The cases of the codec that are not marked P go through the program `replay`.
#![tactic(auto)]

pub mod theorems;
