// The calls on the stream: its words, the settings' words, and the memory that is lent to it.
ghost use Rattle.std.specs.Prelude.{◌≡◌, take};
ghost use Rattle.c_stream.specs.Exports.{deadline_export, error_export, nak_export, poll_export, reset_export, send_export, wants_export};
ghost use Rattle.made_calls.specs.Numbers.{deadline_entry, event_entry, wants_entry};
ghost use Rattle.script.specs.Answers.{entry_of, unless_refused};

use super::caller::Caller;
use super::numbers;
use c_answers::answers::CEvent;
use c_stream::exports as c;
use script::calls::Call;
use script::{answers, calls};
use text::forms::Answer;

// new W C Q: C is how many words are lent.
pub fn new(caller: &mut Caller, call: Call) -> Answer {
    let n = calls::lent(&caller.memory, call.b as usize);
    let memory = &mut caller.memory[..];
    let number = c::sirmjold_stream_new(
        &mut caller.stream,
        &caller.settings,
        calls::wide(call.a),
        call.c as usize,
        &mut memory[..n],
    );
    if number == 0 {
        caller.size = n;
    }
    answers::done(number)
}

pub fn reset(caller: &mut Caller) -> Answer
    ensures answer { result ≡ unless_refused (reset_export caller.old.stream (take caller.old.size caller.old.memory)).0 (entry_of 1 0 0 0) }
    ensures stream { caller.new.stream ≡ (reset_export caller.old.stream (take caller.old.size caller.old.memory)).1 }
{
    let n = calls::lent(&caller.memory, caller.size);
    let memory = &mut caller.memory[..];
    answers::done(c::sirmjold_stream_reset(&mut caller.stream, &mut memory[..n]))
}

// queue WORD.., queuelong WORD..
pub fn queue(caller: &mut Caller, words: &[u32]) -> Answer
    ensures answer { result ≡ unless_refused (send_export caller.old.stream caller.old.settings (take caller.old.size caller.old.memory) words.now).0 (entry_of 1 0 0 0) }
    ensures stream { caller.new.stream ≡ (send_export caller.old.stream caller.old.settings (take caller.old.size caller.old.memory) words.now).1 }
{
    let n = calls::lent(&caller.memory, caller.size);
    let memory = &mut caller.memory[..];
    answers::done(c::sirmjold_stream_send_ump(
        &mut caller.stream,
        &caller.settings,
        &mut memory[..n],
        words,
    ))
}

// request NUMBER COUNT
pub fn request(caller: &mut Caller, seq: u16, count: u16) -> Answer {
    let n = calls::lent(&caller.memory, caller.size);
    numbers::outcome(c::sirmjold_stream_on_retransmit_request(
        &mut caller.stream,
        &caller.settings,
        &caller.memory[..n],
        seq,
        count,
    ))
}

// data NOW NUMBER WORD..
pub fn data(caller: &mut Caller, time: u64, seq: u16) -> Answer {
    let heard = c::sirmjold_stream_on_ump_data(&mut caller.stream, &caller.settings, time, seq);
    caller.last = numbers::delivery_last(heard, seq as u64);
    numbers::delivery(heard)
}

fn told(caller: &mut Caller, event: CEvent) -> Answer
    ensures answer { result ≡ event_entry event }
    ensures stream { caller.new.stream ≡ caller.old.stream }
{
    caller.last = numbers::event_last(event);
    numbers::event(event)
}

// poll NOW
pub fn poll(caller: &mut Caller, time: u64) -> Answer
    ensures answer { result ≡ event_entry (poll_export caller.old.stream caller.old.settings time).0 }
    ensures stream { caller.new.stream ≡ (poll_export caller.old.stream caller.old.settings time).1 }
{
    let event = c::sirmjold_stream_poll(&mut caller.stream, &caller.settings, time);
    told(caller, event)
}

// error REASON NUMBER
pub fn error(caller: &mut Caller, reason: u8, seq: u16) -> Answer
    ensures answer { result ≡ event_entry (error_export caller.old.stream reason seq).0 }
    ensures stream { caller.new.stream ≡ (error_export caller.old.stream reason seq).1 }
{
    let event = c::sirmjold_stream_on_retransmit_error(&mut caller.stream, reason, seq);
    told(caller, event)
}

pub fn nak(caller: &mut Caller) -> Answer
    ensures answer { result ≡ event_entry (nak_export caller.old.stream).0 }
    ensures stream { caller.new.stream ≡ (nak_export caller.old.stream).1 }
{
    let event = c::sirmjold_stream_on_retransmit_nak(&mut caller.stream);
    told(caller, event)
}

pub fn deadline(caller: &Caller) -> Answer
    ensures { result ≡ deadline_entry (deadline_export caller.now.stream (take caller.now.size caller.now.memory)) }
{
    numbers::deadline(c::sirmjold_stream_next_deadline(&caller.stream, caller.history()))
}

// wants NOW
pub fn wants(caller: &Caller, time: u64) -> Answer
    ensures { result ≡ wants_entry (wants_export caller.now.stream (take caller.now.size caller.now.memory) time) }
{
    numbers::wants(c::sirmjold_stream_wants_write(&caller.stream, caller.history(), time))
}

// write NOW
pub fn write(caller: &mut Caller, time: u64) -> Answer {
    let n = calls::lent(&caller.memory, caller.size);
    let room = caller.room.min(caller.buffer.len());
    let memory = &mut caller.memory[..];
    let buffer = &mut caller.buffer[..];
    let written = c::sirmjold_stream_write_data(
        &mut caller.stream,
        &caller.settings,
        time,
        &mut caller.payload,
        &mut buffer[..room],
        &mut memory[..n],
    );
    numbers::written(written, caller.payload[0])
}

pub fn take(caller: &mut Caller) -> Answer {
    let room = caller.room.min(caller.buffer.len());
    let buffer = &mut caller.buffer[..];
    numbers::taken(c::sirmjold_stream_write_request(
        &mut caller.stream,
        &caller.settings,
        &mut caller.payload,
        &mut buffer[..room],
    ))
}
