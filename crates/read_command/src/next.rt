// The next command of a payload, as numbers.
ghost use Rattle.std.specs.Prelude.{◌≡◌, not, ◌||◌, length, eqb, ◌≤◌};
ghost use Rattle.packet.specs.Bytes.{words_of, spliced};
ghost use Rattle.packet.specs.Read.{csd_of, signed, next_of};
ghost use Rattle.command.specs.Parse.{parsed_of};
ghost use Rattle.read_command.specs.Next.{read_of, refused_read, first_of, command_read, whole_read, item_read, read_at};
ghost use Rattle.read_command.specs.Words.{whole_count, lengths_of};

use super::words;
use command::parse;
use command::parse::Command;
use packet::cursor;
use packet::cursor::{Cursor, Header, PacketItem};

// The words of the longest command.
const MOST: usize = 255;

// What stands at a place: 0 the end, 1 a command that is cut, 2 one of any other code, 3 data, 4 a
// request, 5 an error. Where `refusal` is 10 there is a next place too: reading goes on. Kinds and
// refusals are numbers, since C reads them.
#[repr(C)]
#[derive(Clone, Copy)]
pub struct Read {
    // The place of the next command; 0 where reading ends.
    pub next: u64,
    pub refusal: u8,
    pub kind: u8,
    // The code of a cut command or of any other; the reason of an error.
    pub code: u8,
    // The words of the command.
    pub len: u8,
    // The number; of a cut command or of any other, the two command bytes.
    pub seq: u16,
    // Of data, the words of its whole messages; of a request, how many it asks for.
    pub count: u16,
}

fn refused(n: u8) -> Read
    ensures { result ≡ refused_read n }
{
    Read {
        next: 0,
        refusal: n,
        kind: 0,
        code: 0,
        len: 0,
        seq: 0,
        count: 0,
    }
}

// Whether reading can begin at `at`: at 0 the payload's signature is tested.
pub fn opens(payload: &[u8], at: usize) -> bool
    ensures { result ≡ (not (eqb at 0) || signed payload.now) }
{
    if at == 0 {
        match cursor::command_packets(payload) {
            Ok(_) => return true,
            Err(_) => return false,
        }
    }
    true
}

// The place of the first command for 0.
pub fn first(at: usize) -> usize
    ensures { result ≡ first_of at }
{
    if at == 0 { 4 } else { at }
}

// A whole command that is no data.
fn other(header: Header, next: u64, body: &[u8]) -> Read
    requires { header.code ≡ 0xFF → ⊥ }
    ensures { result ≡ command_read header.len next (whole_count (words_of body.now)) (parsed_of header (words_of body.now)) }
{
    let len = header.len;
    match parse::parse(header, body) {
        Ok(Command::UmpData(d)) => Read {
            next,
            refusal: 0,
            kind: 3,
            code: 0,
            len,
            seq: d.seq,
            count: 0,
        },
        Ok(Command::RetransmitRequest(r)) => Read {
            next,
            refusal: 0,
            kind: 4,
            code: 0,
            len,
            seq: r.seq,
            count: r.count,
        },
        Ok(Command::RetransmitError(e)) => Read {
            next,
            refusal: 0,
            kind: 5,
            code: e.reason,
            len,
            seq: e.seq,
            count: 0,
        },
        Ok(Command::Raw(h)) => Read {
            next,
            refusal: 0,
            kind: 2,
            code: h.code,
            len,
            seq: h.csd(),
            count: 0,
        },
        Err(why) => Read {
            next,
            refusal: why.number(),
            kind: 0,
            code: 0,
            len,
            seq: 0,
            count: 0,
        },
    }
}

// A data command with these words.
fn data(header: Header, next: u64, words: &[u32], lens: &mut [u8]) -> Read
    requires { (length words.now ≤ 255) × (255 ≤ length lens.old) }
    ensures { (result ≡ read_of next 3 0 header.len (csd_of header) (whole_count words.now)) × (lens.new ≡ spliced lens.old 0 (lengths_of words.now)) }
{
    let count = words::lengths(words, lens);
    Read {
        next,
        refusal: 0,
        kind: 3,
        code: 0,
        len: header.len,
        seq: header.csd(),
        count: count as u16,
    }
}

// A whole command with these bytes of words.
fn whole(header: Header, next: u64, body: &[u8], words: &mut [u32], lens: &mut [u8]) -> Read
    requires { (length body.now ≤ 1020) × (255 ≤ length words.old) × (255 ≤ length lens.old) }
    ensures { (result, words.new, lens.new) ≡ whole_read header next (words_of body.now) words.old lens.old }
{
    let n = words::put(body, words);
    if header.code == 0xFF {
        return data(header, next, &words[..n], lens);
    }
    other(header, next, body)
}

// What stands at a place.
fn item(payload: &[u8], at: usize, words: &mut [u32], lens: &mut [u8]) -> Read
    requires { (255 ≤ length words.old) × (255 ≤ length lens.old) }
    ensures { (result, words.new, lens.new) ≡ item_read (next_of payload.now at) payload.now words.old lens.old }
{
    let cursor = Cursor { at };
    match cursor.next(payload) {
        PacketItem::End => refused(0),
        PacketItem::Truncated(header) => Read {
            next: 0,
            refusal: 0,
            kind: 1,
            code: header.code,
            len: header.len,
            seq: header.csd(),
            count: 0,
        },
        PacketItem::Command { header, at, next } => {
            let from = at + 4;
            let end = next.at;
            whole(header, end as u64, &payload[from..end], words, lens)
        }
    }
}

// What stands at a place; the first command for 0. A whole command's words stand in `words` then, and
// the lengths of a data command's whole messages in `lens`.
pub fn next(payload: &[u8], at: usize, words: &mut [u32], lens: &mut [u8]) -> Read
    ensures { (result, words.new, lens.new) ≡ read_at payload.now at words.old lens.old }
{
    if words.len() < MOST || lens.len() < MOST {
        return refused(13);
    }
    if !opens(payload, at) {
        return refused(1);
    }
    item(payload, first(at), words, lens)
}
