// A stream as C functions, which include/sirmjold.h declares: those of crate c_stream, one call each, in an archive for C.
#![tactic(auto)]

ghost use Rattle.std.specs.Prelude.{◌≡◌};
ghost use Rattle.c_stream.specs.Exports.{new_export, reset_export, send_export, data_export, write_export, request_export, error_export, nak_export, poll_export, take_export, deadline_export, wants_export};

use c_answers::answers::{CDeadline, CDelivery, CEvent, COutcome, CRequest, CWants, CWritten};
use c_stream::exports;

// A fresh stream: a receive window of `window` numbers, the lent history, which is zeroed, and a
// request queue of `places` places. A start that is refused stores nothing.
#[unsafe(no_mangle)]
pub extern "C" fn sirmjold_stream_new(
    s: &mut [u64],
    cfg: &[u32],
    window: u32,
    places: usize,
    ring: &mut [u32],
) -> u8
    ensures { (result, s.new, ring.new) ≡ new_export s.old cfg.now window places ring.old }
{
    exports::sirmjold_stream_new(s, cfg, window, places, ring)
}

// Back to the fresh stream of the same sizes.
#[unsafe(no_mangle)]
pub extern "C" fn sirmjold_stream_reset(s: &mut [u64], ring: &mut [u32]) -> u8
    ensures { (result, s.new, ring.new) ≡ reset_export s.old ring.old }
{
    exports::sirmjold_stream_reset(s, ring)
}

// Queues whole messages to send.
#[unsafe(no_mangle)]
pub extern "C" fn sirmjold_stream_send_ump(
    s: &mut [u64],
    cfg: &[u32],
    ring: &mut [u32],
    words: &[u32],
) -> u8
    ensures { (result, s.new, ring.new) ≡ send_export s.old cfg.now ring.old words.now }
{
    exports::sirmjold_stream_send_ump(s, cfg, ring, words)
}

// A Retransmit Request arrives.
#[unsafe(no_mangle)]
pub extern "C" fn sirmjold_stream_on_retransmit_request(
    s: &mut [u64],
    cfg: &[u32],
    ring: &[u32],
    seq: u16,
    count: u16,
) -> COutcome
    ensures { (result, s.new) ≡ request_export s.old cfg.now ring.now seq count }
{
    exports::sirmjold_stream_on_retransmit_request(s, cfg, ring, seq, count)
}

// A data command arrives.
#[unsafe(no_mangle)]
pub extern "C" fn sirmjold_stream_on_ump_data(
    s: &mut [u64],
    cfg: &[u32],
    time: u64,
    seq: u16,
) -> CDelivery
    ensures { (result, s.new) ≡ data_export s.old cfg.now time seq }
{
    exports::sirmjold_stream_on_ump_data(s, cfg, time, seq)
}

// A Retransmit Error arrives.
#[unsafe(no_mangle)]
pub extern "C" fn sirmjold_stream_on_retransmit_error(s: &mut [u64], reason: u8, seq: u16) -> CEvent
    ensures { (result, s.new) ≡ error_export s.old reason seq }
{
    exports::sirmjold_stream_on_retransmit_error(s, reason, seq)
}

// A NAK to a Retransmit Request arrives.
#[unsafe(no_mangle)]
pub extern "C" fn sirmjold_stream_on_retransmit_nak(s: &mut [u64]) -> CEvent
    ensures { (result, s.new) ≡ nak_export s.old }
{
    exports::sirmjold_stream_on_retransmit_nak(s)
}

// Runs the receiver's timer. Where nothing is due this is the whole of it, in few registers: all else is left to `poll`,
// which the compiler keeps apart, since it is called in two places that go on differently.
#[unsafe(no_mangle)]
pub extern "C" fn sirmjold_stream_poll(s: &mut [u64], cfg: &[u32], time: u64) -> CEvent
    ensures { (result, s.new) ≡ poll_export s.old cfg.now time }
{
    exports::sirmjold_stream_poll(s, cfg, time)
}

// Takes a due request into a payload, and writes nothing else.
#[unsafe(no_mangle)]
pub extern "C" fn sirmjold_stream_write_request(
    s: &mut [u64],
    cfg: &[u32],
    p: &mut [u64],
    buf: &mut [u8],
) -> CRequest
    ensures { (result, s.new, p.new, buf.new) ≡ take_export s.old cfg.now p.old buf.old }
{
    exports::sirmjold_stream_write_request(s, cfg, p, buf)
}

// The earliest time at which `poll` or `write_data` has timed work.
#[unsafe(no_mangle)]
pub extern "C" fn sirmjold_stream_next_deadline(s: &[u64], ring: &[u32]) -> CDeadline
    ensures { result ≡ deadline_export s.now ring.now }
{
    exports::sirmjold_stream_next_deadline(s, ring)
}

// Whether `write_data` at this time has something to write.
#[unsafe(no_mangle)]
pub extern "C" fn sirmjold_stream_wants_write(s: &[u64], ring: &[u32], time: u64) -> CWants
    ensures { result ≡ wants_export s.now ring.now time }
{
    exports::sirmjold_stream_wants_write(s, ring, time)
}

// Writes into a payload: a due request, then the sender's commands.
#[unsafe(no_mangle)]
pub extern "C" fn sirmjold_stream_write_data(
    s: &mut [u64],
    cfg: &[u32],
    time: u64,
    p: &mut [u64],
    buf: &mut [u8],
    ring: &mut [u32],
) -> CWritten
    ensures { (result, s.new, p.new, buf.new, ring.new) ≡ write_export s.old cfg.now time p.old buf.old ring.old }
{
    exports::sirmjold_stream_write_data(s, cfg, time, p, buf, ring)
}
