// The calls over settings and states that were tested: `is_valid` and `test` are the test of both ends.
ghost use Rattle.std.specs.Prelude.{◌≡◌, true, ◌≤◌, length};
ghost use Rattle.config.specs.Settings.{check_of};
ghost use Rattle.packet.specs.Write.{valid_of as payload_valid};
ghost use Rattle.history.specs.State.{Marks, Answers};
ghost use Rattle.sender.specs.State.{valid_of as sender_valid};
ghost use Rattle.writing.specs.Placing.{begins_of};
ghost use Rattle.stream.specs.State.{valid_of};
ghost use Rattle.stream.specs.Answers.{earlier as earlier_of};
ghost use Rattle.stream.specs.Writing.{sent_after, data_written};

use super::stream::{DataStream, Wrote};
use config::refusal::Refusal;
use config::settings::StreamConfig;
use history::history::Mark;
use packet::writer::PayloadWriter;
use receiver::receiver::Request;
use writing::writing::Written;

// The state test: that of each end.
#[tactic(auto, unfolding(crate::specs::State::valid_of))]
pub fn is_valid(s: DataStream, ring: &[u32]) -> bool
    ensures { result ≡ valid_of s ring.now }
{
    receiver::tested::is_valid(s.receiver) && sender::tested::is_valid(s.sender, ring)
}

// The state test, and from the sender's walk the header where a write begins that repeats the last `back`
// written commands, or the oldest where fewer are written.
pub fn test(s: DataStream, ring: &[u32], back: usize) -> Option<Mark>
    ensures { Answers (valid_of s ring.now) s.sender.history ring.now s.sender.unsent (begins_of s.sender back) result }
{
    if receiver::tested::is_valid(s.receiver) {
        return writing::placing::test(s.sender, ring, back);
    }
    None
}

// The earlier of the two ends' due times.
pub fn earlier(
    a: Result<Option<u64>, Refusal>,
    b: Result<Option<u64>, Refusal>,
) -> Result<Option<u64>, Refusal>
    ensures { result ≡ earlier_of a b }
{
    let first = a?;
    let second = b?;
    match (first, second) {
        (Some(t), Some(u)) => Ok(Some(t.min(u))),
        (None, due) => Ok(due),
        (due, None) => Ok(due),
    }
}

// The sender's write, after `n` commands.
fn write_after(
    n: usize,
    s: DataStream,
    cfg: StreamConfig,
    time: u64,
    p: PayloadWriter,
    buf: &mut [u8],
    ring: &mut [u32],
    from: Mark,
) -> Wrote
    requires { (n ≤ 1) × (check_of cfg ≡ Ok tt) × (sender_valid s.sender ring.old ≡ true) × (payload_valid p (length buf.old) ≡ true) × Marks s.sender.history ring.old from }
    ensures { (result, buf.new, ring.new) ≡ sent_after n s cfg time p buf.old ring.old }
{
    let wrote = writing::tested::write(s.sender, cfg, time, p, buf, ring, from);
    Wrote {
        stream: DataStream {
            sender: wrote.sender,
            ..s
        },
        payload: wrote.payload,
        answer: match wrote.answer {
            Ok(w) => Ok(Written {
                commands: n + w.commands,
                ..w
            }),
            Err(why) => Err(why),
        },
    }
}

// A due request, then the sender's commands, which are walked to from the mark.
pub fn write_data(
    s: DataStream,
    cfg: StreamConfig,
    time: u64,
    p: PayloadWriter,
    buf: &mut [u8],
    ring: &mut [u32],
    from: Mark,
) -> Wrote
    requires { (check_of cfg ≡ Ok tt) × (valid_of s ring.old ≡ true) × (payload_valid p (length buf.old) ≡ true) × Marks s.sender.history ring.old from }
    ensures { (result, buf.new, ring.new) ≡ data_written s cfg time p buf.old ring.old }
{
    let before = s.receiver;
    let mut receiver = before;
    let mut payload = p;
    // The commands written so far.
    let mut n = 0;
    if before.request_due {
        let taken = receiver::tested::write_request(before, cfg, p, buf);
        receiver = taken.receiver;
        payload = taken.payload;
        match taken.answer {
            Err(why) => return Wrote::refused(DataStream { receiver, ..s }, payload, why),
            Ok(Request::More) => {
                return Wrote {
                    stream: DataStream { receiver, ..s },
                    payload,
                    answer: Ok(Written {
                        commands: 0,
                        more: true,
                    }),
                };
            }
            Ok(Request::Nothing) => {}
            Ok(Request::Written) => n = 1,
        }
    }
    // One call in one place: with more, the compiler copies streams.
    write_after(
        n,
        DataStream { receiver, ..s },
        cfg,
        time,
        payload,
        buf,
        ring,
        from,
    )
}
