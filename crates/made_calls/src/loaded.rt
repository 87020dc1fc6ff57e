// What C has no function for: the words of an end are loaded, and the library is asked.
use super::caller::Caller;
use c_state::state;
use c_words::guard;
use config::refusal::Refusal;
use config::sequence::SeqNum;
use script::calls::Call;
use script::{answers, windows};
use std::io;
use text::forms::Answer;
use text::out::Output;

// Words that no call has left.
fn invalid(out: &mut Output<'_, impl Print>) -> io::Result<()> {
    answers::say(out, answers::refused(guard::INVALID_STATE))
}

fn receiver(out: &mut Output<'_, impl Print>, stream: &[u64]) -> io::Result<()> {
    if state::receiver_fits(stream) {
        return script::state::receiver(out, state::receiver_in(stream));
    }
    invalid(out)
}

fn sender(out: &mut Output<'_, impl Print>, stream: &[u64], memory: &[u32]) -> io::Result<()> {
    if state::sender_fits(stream) {
        return script::state::sender(out, state::sender_in(stream), memory);
    }
    invalid(out)
}

// state
pub fn whole(out: &mut Output<'_, impl Print>, caller: &Caller) -> io::Result<()> {
    receiver(out, &caller.stream)?;
    sender(out, &caller.stream, caller.history())
}

// window NUMBER COUNT
pub fn window(out: &mut Output<'_, impl Print>, stream: &[u64], call: Call) -> io::Result<()> {
    if state::receiver_fits(stream) {
        let r = state::receiver_in(stream);
        return windows::all(out, r.window, call);
    }
    invalid(out)
}

fn numbered(n: Result<SeqNum, Refusal>) -> Answer {
    match n {
        Ok(seq) => answers::figure(0, seq as u64),
        Err(why) => answers::refused(why.number()),
    }
}

// next
pub fn next(caller: &Caller) -> Answer {
    let stream = &caller.stream[..];
    if state::sender_fits(stream) {
        let s = state::sender_in(stream);
        return numbered(s.next_seq(caller.history()));
    }
    answers::refused(guard::INVALID_STATE)
}
