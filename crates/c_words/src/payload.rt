// A payload as two words that the caller lends: its length and its limit, in bytes.
ghost use Rattle.std.specs.Prelude.{◌≡◌, length};
ghost use Rattle.c_words.specs.Payload.{payload_fits, payload_in, payload_words};

use super::lent::{put, renew};
use packet::writer::PayloadWriter;

// Whether there are two words.
pub fn fits(words: &[u64]) -> bool
    ensures { result ≡ payload_fits words.now }
{
    words.len() == 2
}

// The payload.
pub fn load(words: &[u64]) -> PayloadWriter
    requires { length words.now ≡ 2 }
    ensures { result ≡ payload_in words.now }
{
    PayloadWriter {
        len: words[0] as usize,
        max: words[1] as usize,
    }
}

// Stores the payload into words that need have none yet.
pub fn open(p: PayloadWriter, words: &mut [u64])
    requires { length words.old ≡ 2 }
    ensures { words.new ≡ payload_words p }
{
    let new = [p.len as u64, p.max as u64];
    put(&new, words, 0);
}

// Stores what a call has left of the payload in the words.
pub fn store(p: PayloadWriter, words: &mut [u64])
    requires { length words.old ≡ 2 }
    ensures { words.new ≡ payload_words p }
{
    let new = [p.len as u64, p.max as u64];
    renew(&new, words, 0);
}
