// Payloads that are read: read BYTES, and the one in which a data command would have come.
ghost use Rattle.std.specs.Prelude.{◌≡◌, IfSome, IsNone, IsTrue, false};
ghost use Rattle.text.specs.Counts.{IsPrefixLen};

use c_codec::exports as c;
use script::items::{DataItem, Item};
use script::{answers, items};
use std::io;
use text::fields::Fields;
use text::out::Output;

// The refusal of a payload that does not begin with its signature.
pub const UNSIGNED: u8 = 1;

// How often 2,000 bytes are read at most: 499 commands, and the end.
pub const MOST: u64 = 500;

// A payload that is read item by item.
#[derive(Drop)]
pub struct Reading<'a> {
    bytes: &'a [u8],
    // The place of the next item, 0 for the first.
    at: usize,
    // No item follows.
    pub ended: bool,
    // The words of the last item, and the lengths of its whole messages.
    words: [u32; 255],
    lens: [u8; 255],
}

impl<'a> Reading<'a> {
    pub fn new(bytes: &'a [u8]) -> Self
        ensures { result.ended ≡ false }
    {
        Reading {
            bytes,
            at: 0,
            ended: false,
            words: [0; 255],
            lens: [0; 255],
        }
    }

    // The next item; none at the payload's end, and after it.
    pub fn next(&mut self) -> Option<Item>
        ensures { IsTrue self.old.ended → IsNone result }
    {
        if self.ended {
            return None;
        }
        let read = c::sirmjold_command_next(self.bytes, self.at, &mut self.words, &mut self.lens);
        self.at = read.next as usize;
        self.ended = read.next == 0;
        items::found(read)
    }

    // The words of the item that was read last.
    pub fn words(&self) -> &[u32]
        ensures { result.now ≡ self.now.words }
    {
        &self.words
    }
}

// The bytes of a line's second field, and how many they are.
fn bytes_of(line: &[u8], into: &mut [u8]) -> Option<usize>
    ensures { IfSome result (λ n. IsPrefixLen n into.new) }
{
    let mut fields = Fields::new(line);
    fields.text()?;
    fields.bytes(into)
}

// Reads the bytes of a line's second field as a payload.
pub fn line(out: &mut Output<'_, impl Print>, line: &[u8]) -> io::Result<()> {
    let mut bytes = [0u8; 2000];
    match bytes_of(line, &mut bytes) {
        Some(n) => payload(out, &bytes[..n]),
        None => answers::say(out, answers::plain(answers::BAD)),
    }
}

fn payload(out: &mut Output<'_, impl Print>, bytes: &[u8]) -> io::Result<()> {
    if !is_signed(bytes) {
        return answers::say(out, answers::refused(UNSIGNED));
    }
    answers::say(out, answers::plain(answers::DONE))?;
    let mut reading = Reading::new(bytes);
    for _ in 0..MOST {
        let Some(item) = reading.next() else {
            break;
        };
        out.byte(b' ')?;
        items::show(out, item, reading.words())?;
    }
    Ok(())
}

// Whether a payload begins with its signature.
pub fn is_signed(bytes: &[u8]) -> bool {
    let mut reading = Reading::new(bytes);
    !matches!(reading.next(), Some(Item::Refused(UNSIGNED)))
}

// What a data command of this class hands on: its words are laid out as they come over the line.
pub fn heard(out: &mut Output<'_, impl Print>, words: &[u32]) -> io::Result<()> {
    let mut payload = [0u64, 1400];
    let mut bytes = [0u8; 1400];
    let mut room = [0u32; 255];
    let mut lens = [0u8; 255];
    c::sirmjold_payload_command(&mut payload, &mut bytes, 0xFF, 0, 0, words);
    let read = c::sirmjold_command_next(&bytes, 4, &mut room, &mut lens);
    let data = DataItem {
        seq: read.seq,
        len: read.len,
        count: read.count,
    };
    items::handed(out, data, words, b' ')
}
