// Queueing and writing in one call: `send_ump`, and where the words are accepted `write_data`. Settings
// and each end's state are tested once: what queueing leaves of a state that passed passes again.
ghost use Rattle.std.specs.Prelude.{◌≡◌, true};
ghost use Rattle.config.specs.Settings.{check_of};
ghost use Rattle.history.specs.State.{Marks};
ghost use Rattle.sender.specs.State.{valid_of as sender_valid};
ghost use Rattle.stream.specs.Writing.{write_answer};
ghost use Rattle.stream.specs.Sending.{not_queued_of, send_and_write_answer};

use super::stream::{DataStream, Wrote};
use super::tested;
use config::refusal::Refusal;
use config::settings::StreamConfig;
use history::history::Mark;
use packet::writer::PayloadWriter;
use writing::writing::Written;

#[derive(Clone, Copy)]
pub enum SendAndWrite {
    // What `send_ump` refuses: nothing is queued and nothing written.
    NotQueued(Refusal),
    // The words are queued, and this is what `write_data` answers.
    Queued(Result<Written, Refusal>),
}

#[derive(Clone, Copy)]
pub struct SentAndWrote {
    pub stream: DataStream,
    pub payload: PayloadWriter,
    pub answer: SendAndWrite,
}

// Words that are refused end the call.
fn not_queued(stream: DataStream, payload: PayloadWriter, why: Refusal) -> SentAndWrote
    ensures { result ≡ not_queued_of stream payload why }
{
    SentAndWrote {
        stream,
        payload,
        answer: SendAndWrite::NotQueued(why),
    }
}

// Writes behind a queue call: the settings and the sender's state have passed.
fn write_queued(
    s: DataStream,
    cfg: StreamConfig,
    time: u64,
    p: PayloadWriter,
    buf: &mut [u8],
    ring: &mut [u32],
    from: Mark,
) -> Wrote
    requires { (check_of cfg ≡ Ok tt) × (sender_valid s.sender ring.old ≡ true) × Marks s.sender.history ring.old from }
    ensures { (result, buf.new, ring.new) ≡ write_answer s cfg time p buf.old ring.old }
{
    if receiver::tested::is_valid(s.receiver) && packet::tested::is_valid(p, buf.len()) {
        return tested::write_data(s, cfg, time, p, buf, ring, from);
    }
    Wrote::refused(s, p, Refusal::InvalidState)
}

impl DataStream {
    // Queues whole messages, then writes into a payload; where the words are refused, nothing is
    // written, and where the write is refused, the words are queued all the same.
    pub fn send_and_write(
        self,
        cfg: StreamConfig,
        time: u64,
        words: &[u32],
        p: PayloadWriter,
        buf: &mut [u8],
        ring: &mut [u32],
    ) -> SentAndWrote
        ensures { (result, buf.new, ring.new) ≡ send_and_write_answer self cfg time words.now p buf.old ring.old }
    {
        if let Err(why) = cfg.check() {
            return not_queued(self, p, why);
        }
        let back = cfg.fec_repeats as usize;
        let Some(found) = writing::placing::test(self.sender, &ring[..], back) else {
            return not_queued(self, p, Refusal::InvalidState);
        };
        let sent = sender::tested::send_ump(self.sender, cfg, ring, words);
        let stream = DataStream {
            sender: sent.sender,
            ..self
        };
        if let Err(why) = sent.answer {
            return not_queued(stream, p, why);
        }
        let mark = writing::placing::mark_queued(self.sender, sent.sender, found);
        let wrote = write_queued(stream, cfg, time, p, buf, ring, mark);
        SentAndWrote {
            stream: wrote.stream,
            payload: wrote.payload,
            answer: SendAndWrite::Queued(wrote.answer),
        }
    }
}
