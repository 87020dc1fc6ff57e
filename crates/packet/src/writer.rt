// One payload, written into a buffer that the caller lends.
//
//   0          4                    len       max       buffer's end
//   | "MIDI"   | commands .. .. ..   |  free   |  untouched |
//
// `len` is 0 until the first command; the signature is written with it.
ghost use Rattle.std.specs.Prelude.{◌≡◌};
ghost use Rattle.packet.specs.Write.{opened_of, written_of};
ghost use Rattle.packet.specs.Layout.{packet};

use super::tested;
use config::range::outside;
use config::refusal::Refusal;

// The smallest and the largest limit of a payload, in bytes.
pub const MIN_PAYLOAD: usize = 8;

pub const MAX_PAYLOAD: usize = 1400;

#[derive(Clone, Copy)]
pub struct PayloadWriter {
    // Bytes written: 0, or 8 and more, a multiple of 4, at most `max`.
    pub len: usize,
    // The limit, 8 to 1,400 bytes. A shorter buffer lowers it.
    pub max: usize,
}

// The payload after a write, as it was where the write was refused.
#[derive(Clone, Copy)]
pub struct Wrote {
    pub payload: PayloadWriter,
    pub answer: Result<(), Refusal>,
}

impl PayloadWriter {
    // An empty payload; 4 when the limit is not 8 to 1,400 bytes.
    pub fn new(max: usize) -> Result<PayloadWriter, Refusal>
        ensures { result ≡ opened_of max }
    {
        if outside(MIN_PAYLOAD, MAX_PAYLOAD, max) {
            return Err(Refusal::InvalidValue);
        }
        Ok(PayloadWriter { len: 0, max })
    }

    // Writes one command after what the payload holds. 13 for a payload that no call has left; 3
    // when the command does not fit and the payload is empty, 2 when it does not fit otherwise; 4
    // when it has over 255 words.
    pub fn command(self, buf: &mut [u8], code: u8, csd1: u8, csd2: u8, words: &[u32]) -> Wrote
        ensures { (result, buf.new) ≡ written_of self buf.old (packet code csd1 csd2 words.now) }
    {
        if tested::is_valid(self, buf.len()) {
            return tested::command(self, buf, code, csd1, csd2, words);
        }
        Wrote {
            payload: self,
            answer: Err(Refusal::InvalidState),
        }
    }
}
