// The calls of a stream whose words the caller lends in `s`. Each tests before it does anything: its
// settings by their own numbers, then 13 for words that are no stream's and for a payload that is not
// two words. A call of one end looks at the words of that end alone.
ghost use Rattle.std.specs.Prelude.{◌≡◌};
ghost use Rattle.c_stream.specs.Exports.{new_export, reset_export, send_export, data_export, write_export, request_export, error_export, nak_export, poll_export, take_export, deadline_export, wants_export};
ghost use Rattle.c_stream.specs.EventWord.{event_in};

use super::event_word;
use c_answers::answers;
use c_answers::answers::{CDeadline, CDelivery, CEvent, COutcome, CRequest, CWants, CWritten};
use c_state::{receiving, state};
use c_words::{guard, payload, settings};
use command::retransmit::{RetransmitError, RetransmitRequest};
use stream::stream::DataStream;

// A fresh stream: a receive window of `window` numbers, the lent history, which is zeroed, and a
// request queue of `places` places. A start that is refused stores nothing.
#[unsafe(no_mangle)]
pub extern "C" fn sirmjold_stream_new(
    s: &mut [u64],
    cfg: &[u32],
    window: u32,
    places: usize,
    ring: &mut [u32],
) -> u8
    ensures { (result, s.new, ring.new) ≡ new_export s.old cfg.now window places ring.old }
{
    let number = settings::number(cfg);
    if number == 0 {
        if s.len() == state::WORDS {
            let started = DataStream::new(settings::load(cfg), window, ring.len(), places, ring);
            let stream = started.stream;
            let answer = started.answer;
            match answer {
                Ok(()) => {
                    state::store(stream, s);
                    return 0;
                }
                Err(why) => {
                    return why.number();
                }
            }
        }
        return guard::INVALID_STATE;
    }
    number
}

// Back to the fresh stream of the same sizes.
#[unsafe(no_mangle)]
pub extern "C" fn sirmjold_stream_reset(s: &mut [u64], ring: &mut [u32]) -> u8
    ensures { (result, s.new, ring.new) ≡ reset_export s.old ring.old }
{
    if state::fits(&s[..]) {
        let before = state::load(&s[..]);
        let done = before.reset(ring);
        let stream = done.stream;
        let answer = done.answer;
        state::store(stream, s);
        return config::answer::number(answer);
    }
    guard::INVALID_STATE
}

// Queues whole messages to send.
#[unsafe(no_mangle)]
pub extern "C" fn sirmjold_stream_send_ump(
    s: &mut [u64],
    cfg: &[u32],
    ring: &mut [u32],
    words: &[u32],
) -> u8
    ensures { (result, s.new, ring.new) ≡ send_export s.old cfg.now ring.old words.now }
{
    let number = settings::number(cfg);
    if number == 0 {
        if state::sender_fits(&s[..]) {
            let before = state::sender_in(&s[..]);
            let done = before.send_ump(settings::load(cfg), ring, words);
            let sender = done.sender;
            let answer = done.answer;
            state::store_figures(sender, s);
            return config::answer::number(answer);
        }
        return guard::INVALID_STATE;
    }
    number
}

// A Retransmit Request arrives.
#[unsafe(no_mangle)]
pub extern "C" fn sirmjold_stream_on_retransmit_request(
    s: &mut [u64],
    cfg: &[u32],
    ring: &[u32],
    seq: u16,
    count: u16,
) -> COutcome
    ensures { (result, s.new) ≡ request_export s.old cfg.now ring.now seq count }
{
    let number = settings::number(cfg);
    if number == 0 {
        if state::sender_fits(&s[..]) {
            let before = state::sender_in(&s[..]);
            let req = RetransmitRequest { seq, count };
            let done = before.on_retransmit_request(settings::load(cfg), ring, req);
            let sender = done.sender;
            let outcome = done.answer;
            state::store_sender(sender, s);
            return answers::of_outcome(outcome);
        }
        return answers::refused_outcome(guard::INVALID_STATE);
    }
    answers::refused_outcome(number)
}

// A data command arrives.
#[unsafe(no_mangle)]
pub extern "C" fn sirmjold_stream_on_ump_data(
    s: &mut [u64],
    cfg: &[u32],
    time: u64,
    seq: u16,
) -> CDelivery
    ensures { (result, s.new) ≡ data_export s.old cfg.now time seq }
{
    let number = settings::number(cfg);
    if number == 0 {
        if state::receiver_fits(&s[..]) {
            return answers::of_hearing(receiving::hear(settings::load(cfg), time, seq, s));
        }
        return answers::refused_delivery(guard::INVALID_STATE);
    }
    answers::refused_delivery(number)
}

// A Retransmit Error arrives.
#[unsafe(no_mangle)]
pub extern "C" fn sirmjold_stream_on_retransmit_error(s: &mut [u64], reason: u8, seq: u16) -> CEvent
    ensures { (result, s.new) ≡ error_export s.old reason seq }
{
    if state::receiver_fits(&s[..]) {
        let before = state::receiver_in(&s[..]);
        let done = before.on_retransmit_error(RetransmitError { reason, seq });
        let receiver = done.receiver;
        let event = done.answer;
        state::renew_receiver(receiver, s);
        return answers::of_event(event);
    }
    answers::refused_event(guard::INVALID_STATE)
}

// A NAK to a Retransmit Request arrives.
#[unsafe(no_mangle)]
pub extern "C" fn sirmjold_stream_on_retransmit_nak(s: &mut [u64]) -> CEvent
    ensures { (result, s.new) ≡ nak_export s.old }
{
    if state::receiver_fits(&s[..]) {
        let before = state::receiver_in(&s[..]);
        let done = before.on_retransmit_nak();
        let receiver = done.receiver;
        let event = done.answer;
        state::renew_receiver(receiver, s);
        return answers::of_event(event);
    }
    answers::refused_event(guard::INVALID_STATE)
}

// Runs the receiver's timer; the answer is packed.
fn poll(s: &mut [u64], cfg: &[u32], time: u64) -> u64
    ensures { (event_in result, s.new) ≡ poll_export s.old cfg.now time }
{
    let number = settings::number(&cfg[..]);
    if number == 0 {
        if state::receiver_fits(&s[..]) {
            let event = receiving::poll(settings::load(&cfg[..]), time, s);
            return event_word::packed(answers::of_event(event));
        }
        return event_word::packed(answers::refused_event(guard::INVALID_STATE));
    }
    event_word::packed(answers::refused_event(number))
}

// Runs the receiver's timer. Where nothing is due this is the whole of it, in few registers: all else is left to `poll`,
// which the compiler keeps apart, since it is called in two places that go on differently.
#[unsafe(no_mangle)]
pub extern "C" fn sirmjold_stream_poll(s: &mut [u64], cfg: &[u32], time: u64) -> CEvent
    ensures { (result, s.new) ≡ poll_export s.old cfg.now time }
{
    if settings::number(cfg) == 0 {
        if receiving::waits(time, &s[..]) {
            return answers::of_event(Ok(None));
        }
        return event_word::unpacked(poll(s, cfg, time));
    }
    let refused = event_word::unpacked(poll(s, cfg, time));
    answers::refused_event(refused.refusal)
}

// Takes a due request into a payload, and writes nothing else.
#[unsafe(no_mangle)]
pub extern "C" fn sirmjold_stream_write_request(
    s: &mut [u64],
    cfg: &[u32],
    p: &mut [u64],
    buf: &mut [u8],
) -> CRequest
    ensures { (result, s.new, p.new, buf.new) ≡ take_export s.old cfg.now p.old buf.old }
{
    let number = settings::number(cfg);
    if number == 0 {
        if guard::both(state::receiver_fits(&s[..]), payload::fits(&p[..])) {
            let before = state::receiver_in(&s[..]);
            let done = before.write_request(settings::load(cfg), payload::load(&p[..]), buf);
            let receiver = done.receiver;
            let written = done.payload;
            let answer = done.answer;
            state::renew_receiver(receiver, s);
            payload::store(written, p);
            return answers::of_request(answer);
        }
        return answers::refused_request(guard::INVALID_STATE);
    }
    answers::refused_request(number)
}

// The earliest time at which `poll` or `write_data` has timed work.
#[unsafe(no_mangle)]
pub extern "C" fn sirmjold_stream_next_deadline(s: &[u64], ring: &[u32]) -> CDeadline
    ensures { result ≡ deadline_export s.now ring.now }
{
    if state::fits(s) {
        let stream = state::load(s);
        return answers::of_deadline(stream.next_deadline(ring));
    }
    answers::refused_deadline(guard::INVALID_STATE)
}

// Whether `write_data` at this time has something to write.
#[unsafe(no_mangle)]
pub extern "C" fn sirmjold_stream_wants_write(s: &[u64], ring: &[u32], time: u64) -> CWants
    ensures { result ≡ wants_export s.now ring.now time }
{
    if state::fits(s) {
        let stream = state::load(s);
        return answers::of_wants(stream.wants_write(ring, time));
    }
    answers::refused_wants(guard::INVALID_STATE)
}

// Writes into a payload: a due request, then the sender's commands.
#[unsafe(no_mangle)]
pub extern "C" fn sirmjold_stream_write_data(
    s: &mut [u64],
    cfg: &[u32],
    time: u64,
    p: &mut [u64],
    buf: &mut [u8],
    ring: &mut [u32],
) -> CWritten
    ensures { (result, s.new, p.new, buf.new, ring.new) ≡ write_export s.old cfg.now time p.old buf.old ring.old }
{
    let number = settings::number(cfg);
    if number == 0 {
        if guard::both(state::fits(&s[..]), payload::fits(&p[..])) {
            let before = state::load(&s[..]);
            let asking = before.receiver;
            let due = asking.request_due;
            let done = before.write_data(
                settings::load(cfg),
                time,
                payload::load(&p[..]),
                buf,
                ring,
            );
            let stream = done.stream;
            let written = done.payload;
            let answer = done.answer;
            state::store_written(due, stream, s);
            payload::store(written, p);
            return answers::of_writing(answer);
        }
        return answers::refused_written(guard::INVALID_STATE);
    }
    answers::refused_written(number)
}
