// Writing into a payload that has passed the state test. What stands here asks for that test; the
// entry points are in `writer`.
ghost use Rattle.std.specs.Prelude.{◌≡◌, true, ◌++◌, [], ◌∷◌, ◌+◌, ◌*◌, ◌≤◌, length};
ghost use Rattle.packet.specs.Bytes.{spliced};
ghost use Rattle.packet.specs.Layout.{packet, size_of};
ghost use Rattle.packet.specs.Write.{valid_of, limit_of, start_of, free_of, begun_of, placed_of, refused_of, written_of, no_fit};

use super::bytes::{put_word, put_words};
use super::cursor::Header;
use super::writer::{MAX_PAYLOAD, MIN_PAYLOAD, PayloadWriter, Wrote};
use config::range::{least, outside};
use config::refusal::Refusal;

const SIGNATURE: u32 = 0x4D49_4449;

// The state test of a payload over a buffer of `room` bytes.
pub fn is_valid(p: PayloadWriter, room: usize) -> bool
    ensures { result ≡ valid_of p room }
{
    !outside(MIN_PAYLOAD, MAX_PAYLOAD, p.max)
        && (p.len == 0 || (!outside(MIN_PAYLOAD, limit(p, room), p.len) && p.len % 4 == 0))
}

// The limit in a buffer of `room` bytes.
fn limit(p: PayloadWriter, room: usize) -> usize
    ensures { result ≡ limit_of p room }
{
    least(p.max, room)
}

// Where the next header goes: after the signature, or after what is written.
fn start(p: PayloadWriter) -> usize
    ensures { result ≡ start_of p }
{
    if p.len == 0 { 4 } else { p.len }
}

// The words that still fit, a header among them.
pub fn free_words(p: PayloadWriter, room: usize) -> usize
    ensures { result ≡ free_of p room }
{
    limit(p, room).saturating_sub(start(p)) / 4
}

// Stores the signature where the payload is empty, and gives the next header's place.
fn begin(p: PayloadWriter, buf: &mut [u8]) -> usize
    requires { start_of p ≤ length buf.old }
    ensures { (result ≡ start_of p) × (buf.new ≡ begun_of p buf.old) }
{
    if p.len == 0 {
        put_word(buf, 0, SIGNATURE);
    }
    start(p)
}

fn put_header(buf: &mut [u8], at: usize, header: Header)
    requires { at + 4 ≤ length buf.old }
    ensures { buf.new ≡ spliced buf.old at (header.code ∷ header.len ∷ header.csd1 ∷ header.csd2 ∷ []) }
{
    let Header {
        code,
        len,
        csd1,
        csd2,
    } = header;
    // One by one: an array of them would be put into memory first, and read again as a word.
    buf[at] = code;
    buf[at + 1] = len;
    buf[at + 2] = csd1;
    buf[at + 3] = csd2;
}

// The answer to a command that does not fit.
fn refuse_fit(p: PayloadWriter) -> Wrote
    ensures { result ≡ refused_of p (no_fit p) }
{
    if p.len == 0 {
        return Wrote {
            payload: p,
            answer: Err(Refusal::TooLarge),
        };
    }
    Wrote {
        payload: p,
        answer: Err(Refusal::Overflow),
    }
}

// Puts a command that fits behind what the payload holds, its words those of `first` and then those of
// `second`, and gives the new length.
fn put_runs(
    p: PayloadWriter,
    buf: &mut [u8],
    code: u8,
    csd1: u8,
    csd2: u8,
    first: &[u32],
    second: &[u32],
) -> usize
    requires { (start_of p + (4 + 4 * (length first.now + length second.now)) ≤ limit_of p (length buf.old)) × (length first.now + length second.now ≤ 255) }
    ensures { (result ≡ start_of p + size_of (packet code csd1 csd2 (first.now ++ second.now))) × (buf.new ≡ placed_of p buf.old (packet code csd1 csd2 (first.now ++ second.now))) }
{
    let at = begin(p, buf);
    let n = first.len() + second.len();
    let header = Header {
        code,
        len: n as u8,
        csd1,
        csd2,
    };
    put_header(buf, at, header);
    put_words(buf, at + 4, first);
    put_words(buf, at + 4 + 4 * first.len(), second);
    at + 4 + 4 * n
}

// Writes one command, whose words are those of `first` and then those of `second`.
pub fn command_runs(
    p: PayloadWriter,
    buf: &mut [u8],
    code: u8,
    csd1: u8,
    csd2: u8,
    first: &[u32],
    second: &[u32],
) -> Wrote
    requires { valid_of p (length buf.old) ≡ true }
    ensures { (result, buf.new) ≡ written_of p buf.old (packet code csd1 csd2 (first.now ++ second.now)) }
{
    let n = first.len() + second.len();
    if free_words(p, buf.len()) <= n {
        return refuse_fit(p);
    }
    if 255 < n {
        return Wrote {
            payload: p,
            answer: Err(Refusal::InvalidValue),
        };
    }
    let len = put_runs(p, buf, code, csd1, csd2, first, second);
    Wrote {
        payload: PayloadWriter { len, max: p.max },
        answer: Ok(()),
    }
}

// Writes one command.
pub fn command(
    p: PayloadWriter,
    buf: &mut [u8],
    code: u8,
    csd1: u8,
    csd2: u8,
    words: &[u32],
) -> Wrote
    requires { valid_of p (length buf.old) ≡ true }
    ensures { (result, buf.new) ≡ written_of p buf.old (packet code csd1 csd2 words.now) }
{
    command_runs(p, buf, code, csd1, csd2, words, &[])
}
