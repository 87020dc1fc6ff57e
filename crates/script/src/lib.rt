// The call script: a list of calls on a stream and a payload, one to a line, each answered with one
// line. What a line says and what an answer prints stand here; the crate `made_calls` makes the calls, for the
// program `replay`. docs/CALLS.md has every call with its answers, and an example of each.
//
//   calls     the calls by name, their fields and words     state, windows   a stream's state and its window as text
//   answers   each answer as an entry of a table            items            what reading a payload finds, as text
//
//   settings  cfg T1 G K R X D M SIZE              start     new W C Q, reset
//   send      queue WORD.., request NUMBER COUNT   write     write NOW, take
//   payload   open LIMIT BUFFER, raw CODE CSD1 CSD2 WORD.., senddata NUMBER WORD..,
//             sendrequest NUMBER COUNT, senderror REASON NUMBER
//   receive   read BYTES, hear NOW BYTES, data NOW NUMBER WORD.., poll NOW, error REASON NUMBER, nak
//   ask       deadline, wants NOW, state, payload, buffer, memory
//
// Those are the papers' calls. These show what they leave out; SPAN is FIRST,COUNT, or - for nothing:
//
//   queuelong WORD..      queue, with up to 454 words, all that a line holds; queue takes 256
//   next                  the number that the next written command gets
//   last                  what the last data, poll, error or nak gave beside its answer, of a hear too:
//                         delivery NUMBER SPAN (the numbers skipped), loss -, loss REASON,NUMBER (a
//                         Retransmit Error told it), error REASON,NUMBER, or none
//   window NUMBER COUNT   class C GAP processed P missing SPAN request SPAN marked SPAN bits BITS: what
//                         the window takes NUMBER for (N, L or D), what it lacks and would ask for; what
//                         marking COUNT numbers from NUMBER on in a copy of it marks, and the copy's bits
//
// Figures are decimal, WORD, BYTES, CODE, CSD1 and CSD2 hexadecimal. Empty lines and those that begin
// with # answer nothing. A line that is no call answers `bad`, a refusal `refused N` by its number; in
// both cases nothing changes but what 01 says. One more exception: a refused cfg keeps its settings all
// the same, and the calls that are given settings answer its refusal.
//
// Lines, fields and output are the crate `text`'s.
#![tactic(auto)]

pub mod answers;
pub mod calls;
pub mod items;
pub mod state;
pub mod windows;
