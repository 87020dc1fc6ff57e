// The sender's write. Sender and payload are taken by value and handed back with the answer; the
// history's words lie in the lent slice `ring`.
ghost use Rattle.std.specs.Prelude.{◌≡◌};
ghost use Rattle.writing.specs.Answers.{write_answer};

use super::{placing, tested};
use config::refusal::Refusal;
use config::settings::StreamConfig;
use packet::writer::PayloadWriter;
use sender::sender::Sender;

// What a write has written into the payload.
#[derive(Clone, Copy)]
pub struct Written {
    pub commands: usize,
    // The next command in order did not fit.
    pub more: bool,
}

#[derive(Clone, Copy)]
pub struct Wrote {
    pub sender: Sender,
    pub payload: PayloadWriter,
    pub answer: Result<Written, Refusal>,
}

// Writes into the payload: waiting retransmits, up to R repeats, and new commands, after a due idle
// command was queued. 3 when the first new command is too large for an empty payload.
pub fn write(
    s: Sender,
    cfg: StreamConfig,
    time: u64,
    p: PayloadWriter,
    buf: &mut [u8],
    ring: &mut [u32],
) -> Wrote
    ensures { (result, buf.new, ring.new) ≡ write_answer s cfg time p buf.old ring.old }
{
    match cfg.check() {
        Err(why) => Wrote {
            sender: s,
            payload: p,
            answer: Err(why),
        },
        Ok(()) => {
            if let Some(mark) = placing::test(s, &ring[..], cfg.fec_repeats as usize) {
                if packet::tested::is_valid(p, buf.len()) {
                    return tested::write(s, cfg, time, p, buf, ring, mark);
                }
                return Wrote {
                    sender: s,
                    payload: p,
                    answer: Err(Refusal::InvalidState),
                };
            }
            Wrote {
                sender: s,
                payload: p,
                answer: Err(Refusal::InvalidState),
            }
        }
    }
}
