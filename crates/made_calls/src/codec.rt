// The calls on the payload, which are given its two words and the buffer that is lent to it.
ghost use Rattle.std.specs.Prelude.{◌≡◌};
ghost use Rattle.c_codec.specs.Exports.{open_export};
ghost use Rattle.script.specs.Answers.{entry_of, unless_refused};

use super::caller::Caller;
use c_codec::exports as c;
use script::calls::{Call, Kind};
use script::{answers, calls};
use text::forms::Answer;

// What a fresh buffer is filled with.
const FILL: u8 = 0xAA;

// open LIMIT BUFFER
pub fn open(caller: &mut Caller, call: Call) -> Answer
    ensures answer { result ≡ unless_refused (open_export caller.old.payload call.a).0 (entry_of 1 0 0 0) }
    ensures payload { caller.new.payload ≡ (open_export caller.old.payload call.a).1 }
{
    let number = c::sirmjold_payload_new(&mut caller.payload, call.a as usize);
    if number == 0 {
        let room = (call.b as usize).min(caller.buffer.len());
        let buffer = &mut caller.buffer[..];
        buffer[..room].fill(FILL);
        caller.room = room;
    }
    answers::done(number)
}

// raw CODE CSD1 CSD2 WORD.., senddata NUMBER WORD.., sendrequest NUMBER COUNT, senderror REASON NUMBER
pub fn sends(caller: &mut Caller, call: Call, words: &[u32]) -> Answer {
    let room = caller.room.min(caller.buffer.len());
    let payload = &mut caller.payload[..];
    let whole = &mut caller.buffer[..];
    let buffer = &mut whole[..room];
    let number = match call.kind {
        Kind::SendData => c::sirmjold_ump_data_write(payload, buffer, calls::half(call.a), words),
        Kind::SendRequest => c::sirmjold_retransmit_request_write(
            payload,
            buffer,
            calls::half(call.a),
            calls::half(call.b),
        ),
        Kind::SendError => c::sirmjold_retransmit_error_write(
            payload,
            buffer,
            calls::byte(call.a),
            calls::half(call.b),
        ),
        _ => c::sirmjold_payload_command(
            payload,
            buffer,
            calls::byte(call.a),
            calls::byte(call.b),
            calls::byte(call.c),
            words,
        ),
    };
    answers::done(number)
}
