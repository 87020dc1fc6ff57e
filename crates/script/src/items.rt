// What reading a payload finds, as text, the parts of an item joined by colons.
ghost use Rattle.std.specs.Prelude.{◌≡◌, ◌≢◌, ◌↔◌, IsNone, Some};

use command::retransmit::{RetransmitError, RetransmitRequest};
use read_command::next::Read;
use std::io;
use std::io::Write;
use text::out::Output;

// Data: its number, its words, and how many of them are in whole messages.
#[derive(Clone, Copy)]
pub struct DataItem {
    pub seq: u16,
    pub len: u8,
    pub count: u16,
}

// A command of any other code, or one that is cut.
#[derive(Clone, Copy)]
pub struct RawItem {
    pub code: u8,
    pub len: u8,
    pub csd: u16,
}

// What stands at a place of a payload.
#[derive(Clone, Copy)]
pub enum Item {
    Cut(RawItem),
    Raw(RawItem),
    Data(DataItem),
    Request(RetransmitRequest),
    Error(RetransmitError),
    // By its number.
    Refused(u8),
}

// What was read at a place, none at the payload's end. `Read` is C's, and its kinds are numbers.
pub fn found(r: Read) -> Option<Item>
    ensures end { IsNone result ↔ ((r.refusal ≡ 0) × (r.kind ≡ 0)) }
    ensures refused { r.refusal ≢ 0 → result ≡ Some (Item.Refused r.refusal) }
{
    if r.refusal != 0 {
        return Some(Item::Refused(r.refusal));
    }
    let raw = RawItem {
        code: r.code,
        len: r.len,
        csd: r.seq,
    };
    match r.kind {
        0 => None,
        1 => Some(Item::Cut(raw)),
        2 => Some(Item::Raw(raw)),
        3 => Some(Item::Data(DataItem {
            seq: r.seq,
            len: r.len,
            count: r.count,
        })),
        4 => Some(Item::Request(RetransmitRequest {
            seq: r.seq,
            count: r.count,
        })),
        _ => Some(Item::Error(RetransmitError {
            reason: r.code,
            seq: r.seq,
        })),
    }
}

// An item; words follow for data and raw.
pub fn show(out: &mut Output<'_, impl Print>, item: Item, words: &[u32]) -> io::Result<()> {
    match item {
        Item::Cut(c) => {
            let csd = c.csd.to_be_bytes();
            write!(
                out,
                "cut:{:02X}:{:02X}:{:02X}:{:02X}",
                c.code, c.len, csd[0], csd[1]
            )
        }
        Item::Raw(c) => {
            let csd = c.csd.to_be_bytes();
            out.text(b"raw:")?;
            for b in [c.code, csd[0], csd[1]] {
                out.hex(&[b])?;
                out.byte(b':')?;
            }
            out.words(words, 0, usize::from(c.len))
        }
        Item::Data(d) => {
            write!(out, "data:{}:", d.seq)?;
            handed(out, d, words, b':')
        }
        Item::Request(q) => write!(out, "request:{}:{}", q.seq, q.count),
        Item::Error(e) => write!(out, "error:{}:{}", e.reason, e.seq),
        Item::Refused(number) => write!(out, "refused:{number}"),
    }
}

// The words of a data command's whole messages, and whether they end inside a message.
pub fn handed(
    out: &mut Output<'_, impl Print>,
    data: DataItem,
    words: &[u32],
    between: u8,
) -> io::Result<()> {
    out.words(words, 0, usize::from(data.count))?;
    out.byte(between)?;
    let cut = data.count < u16::from(data.len);
    out.decimal(u64::from(cut))
}
