// Payloads and their commands. A payload that is being written is two words, `p`, and a lent buffer;
// a received one is its bytes.
ghost use Rattle.std.specs.Prelude.{◌≡◌};
ghost use Rattle.packet.specs.Write.{written_of};
ghost use Rattle.packet.specs.Layout.{packet};
ghost use Rattle.read_command.specs.Next.{read_at};
ghost use Rattle.command.specs.Write.{data_written, request_packet, error_written};
ghost use Rattle.c_codec.specs.Exports.{open_export, command_export};

use c_words::{guard, payload};
use command::data::UmpData;
use command::retransmit::{RetransmitError, RetransmitRequest};
use packet::writer::PayloadWriter;
use read_command::next;
use read_command::next::Read;

// An empty payload; 4 when the limit is not 8 to 1,400 bytes.
#[unsafe(no_mangle)]
pub extern "C" fn sirmjold_payload_new(p: &mut [u64], max: usize) -> u8
    ensures { (result, p.new) ≡ open_export p.old max }
{
    if p.len() == 2 {
        match PayloadWriter::new(max) {
            Ok(payload) => {
                payload::open(payload, p);
                return 0;
            }
            Err(why) => {
                return why.number();
            }
        }
    }
    guard::INVALID_STATE
}

// Writes one raw command after what the payload holds.
#[unsafe(no_mangle)]
pub extern "C" fn sirmjold_payload_command(
    p: &mut [u64],
    buf: &mut [u8],
    code: u8,
    csd1: u8,
    csd2: u8,
    words: &[u32],
) -> u8
    ensures { (result, p.new, buf.new) ≡ command_export (λ w. written_of w buf.old (packet code csd1 csd2 words.now)) p.old buf.old }
{
    if p.len() == 2 {
        let before = payload::load(&p[..]);
        let done = before.command(buf, code, csd1, csd2, words);
        let after = done.payload;
        let answer = done.answer;
        payload::store(after, p);
        return config::answer::number(answer);
    }
    guard::INVALID_STATE
}

// Writes UMP Data.
#[unsafe(no_mangle)]
pub extern "C" fn sirmjold_ump_data_write(
    p: &mut [u64],
    buf: &mut [u8],
    seq: u16,
    words: &[u32],
) -> u8
    ensures { (result, p.new, buf.new) ≡ command_export (λ w. data_written w buf.old seq words.now) p.old buf.old }
{
    if p.len() == 2 {
        let done = UmpData::write(payload::load(&p[..]), buf, seq, words);
        let after = done.payload;
        let answer = done.answer;
        payload::store(after, p);
        return config::answer::number(answer);
    }
    guard::INVALID_STATE
}

// Writes a Retransmit Request.
#[unsafe(no_mangle)]
pub extern "C" fn sirmjold_retransmit_request_write(
    p: &mut [u64],
    buf: &mut [u8],
    seq: u16,
    count: u16,
) -> u8
    ensures { (result, p.new, buf.new) ≡ command_export (λ w. written_of w buf.old (request_packet record { seq = seq; count = count })) p.old buf.old }
{
    if p.len() == 2 {
        let req = RetransmitRequest { seq, count };
        let done = req.write(payload::load(&p[..]), buf);
        let after = done.payload;
        let answer = done.answer;
        payload::store(after, p);
        return config::answer::number(answer);
    }
    guard::INVALID_STATE
}

// Writes a Retransmit Error.
#[unsafe(no_mangle)]
pub extern "C" fn sirmjold_retransmit_error_write(
    p: &mut [u64],
    buf: &mut [u8],
    reason: u8,
    seq: u16,
) -> u8
    ensures { (result, p.new, buf.new) ≡ command_export (λ w. error_written record { reason = reason; seq = seq } w buf.old) p.old buf.old }
{
    if p.len() == 2 {
        let err = RetransmitError { reason, seq };
        let done = err.write(payload::load(&p[..]), buf);
        let after = done.payload;
        let answer = done.answer;
        payload::store(after, p);
        return config::answer::number(answer);
    }
    guard::INVALID_STATE
}

// The command at a place, with its words and the lengths of its messages: one call for each command.
// At 0 the signature is tested, and the first command is read.
#[unsafe(no_mangle)]
pub extern "C" fn sirmjold_command_next(
    payload: &[u8],
    at: usize,
    words: &mut [u32],
    lens: &mut [u8],
) -> Read
    ensures { (result, words.new, lens.new) ≡ read_at payload.now at words.old lens.old }
{
    next::next(payload, at, words, lens)
}
