// The work of the reader, on plain slices. What is decided is decided here; the functions over the
// struct only call these.
ghost use Rattle.std.specs.Prelude.{◌≡◌, drop};
ghost use Rattle.packet.specs.Read.{next_of};
ghost use Rattle.command_packets.specs.Held.{unread_at, payload_at, after_at};

use config::refusal::Refusal;
use packet::cursor::{Cursor, PacketItem, body};

// The bytes from place `at` on; none from past the end.
pub fn from(bytes: &[u8], at: usize) -> &[u8]
    ensures { result.now ≡ drop at bytes.now }
{
    bytes.get(at..).unwrap_or(&[])
}

// What is unread of a payload that was just opened.
pub fn opened(payload: &[u8], answer: Result<Cursor, Refusal>) -> &[u8]
    ensures { result.now ≡ unread_at answer payload.now }
{
    let end = payload.len();
    match answer {
        Ok(cursor) => from(payload, cursor.at),
        Err(_) => from(payload, end),
    }
}

// What the bytes begin with.
pub fn front(rest: &[u8]) -> PacketItem
    ensures { result ≡ next_of rest.now 0 }
{
    Cursor { at: 0 }.next(rest)
}

// The bytes of a whole command's words, where the bytes begin with the item; none of another item.
pub fn payload(bytes: &[u8], item: PacketItem) -> &[u8]
    ensures { result.now ≡ payload_at item bytes.now }
{
    match item {
        PacketItem::Command {
            header,
            at,
            next: _,
        } => body(bytes, at, header),
        PacketItem::Truncated(_) => &bytes[..0],
        PacketItem::End => &bytes[..0],
    }
}

// What is unread after an item: a cut command ends the reading.
pub fn after(rest: &[u8], item: PacketItem) -> &[u8]
    ensures { result.now ≡ after_at item rest.now }
{
    let end = rest.len();
    match item {
        PacketItem::Command {
            header: _,
            at: _,
            next,
        } => from(rest, next.at),
        PacketItem::Truncated(_) => from(rest, end),
        PacketItem::End => rest,
    }
}
