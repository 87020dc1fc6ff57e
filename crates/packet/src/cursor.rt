// Reading a received payload: the signature, then one command after the other.
//
//   bytes:  "MIDI" | header | words .. | header | words .. | 0 to 3 bytes, passed over
//                  ^ at
//
// A `Cursor` is the place of the next header. A command that is longer than the rest is reported
// cut, and ends the reading. Reading ends on every input, since each step passes 4 bytes or more.
ghost use Rattle.std.specs.Prelude.{◌≡◌, ◌*◌, ◌≤◌};
ghost use Rattle.packet.specs.Read.{csd_of, signed, open_of, next_of, body_of, word_at};

use super::bytes::get_word;
use config::refusal::Refusal;

#[derive(Clone, Copy)]
pub struct Header {
    // Command code.
    pub code: u8,
    // Payload length, in words.
    pub len: u8,
    // Command specific data.
    pub csd1: u8,
    pub csd2: u8,
}

impl Header {
    // The command specific data as one number.
    pub fn csd(self) -> u16
        ensures { result ≡ csd_of self }
    {
        u16::from_be_bytes([self.csd1, self.csd2])
    }

    // The bytes of its words.
    fn size(self) -> usize
        ensures { (result ≡ 4 * self.len) × (result ≤ 1020) }
    {
        4 * usize::from(self.len)
    }
}

#[derive(Clone, Copy)]
pub struct Cursor {
    pub at: usize,
}

#[derive(Clone, Copy)]
pub enum PacketItem {
    // A whole command: its header, the header's place, and the place of the next.
    Command {
        header: Header,
        at: usize,
        next: Cursor,
    },
    // A command that is longer than the rest.
    Truncated(Header),
    End,
}

// Whether the first four bytes are "MIDI".
fn is_signed(payload: &[u8]) -> bool
    ensures { result ≡ signed payload.now }
{
    payload.starts_with(b"MIDI")
}

// The place of the first command; 1 when the first four bytes are not the signature.
pub fn command_packets(payload: &[u8]) -> Result<Cursor, Refusal>
    ensures { result ≡ open_of payload.now }
{
    if is_signed(payload) {
        return Ok(Cursor { at: 4 });
    }
    Err(Refusal::BadSignature)
}

impl Cursor {
    // What stands at the cursor.
    pub fn next(self, payload: &[u8]) -> PacketItem
        ensures { result ≡ next_of payload.now self.at }
    {
        let at = self.at;
        let Some(unread) = payload.get(at..) else {
            return PacketItem::End;
        };
        let [code, len, csd1, csd2, rest @ ..] = unread else {
            return PacketItem::End;
        };
        let header = Header {
            code: *code,
            len: *len,
            csd1: *csd1,
            csd2: *csd2,
        };
        let size = header.size();
        if rest.len() < size {
            return PacketItem::Truncated(header);
        }
        PacketItem::Command {
            header,
            at,
            next: Cursor { at: at + 4 + size },
        }
    }
}

// The words' bytes of the command whose header stands at `at`, a part of the payload.
pub fn body(payload: &[u8], at: usize, header: Header) -> &[u8]
    ensures { result.now ≡ body_of payload.now at header }
{
    let from = at.saturating_add(4).min(payload.len());
    let rest = &payload[from..];
    &rest[..header.size().min(rest.len())]
}

// The word at `index` of a command's bytes.
pub fn word(body: &[u8], index: usize) -> Option<u32>
    ensures { result ≡ word_at body.now index }
{
    if index < body.len() / 4 {
        return Some(get_word(body, 4 * index));
    }
    None
}
