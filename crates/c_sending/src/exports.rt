// Queueing and writing in one call. As in the other calls, settings and words are tested first: 13 for
// words that are no stream's and for a payload that is not two words, and then nothing is queued.
ghost use Rattle.std.specs.Prelude.{◌≡◌};
ghost use Rattle.c_sending.specs.Exports.{send_and_write_export};

use c_answers::sending;
use c_answers::sending::CSentWritten;
use c_state::state;
use c_words::{guard, payload, settings};

// Queues whole messages, then writes into a payload: `send_ump` and `write_data` in one.
#[unsafe(no_mangle)]
pub extern "C" fn sirmjold_stream_send_and_write(
    s: &mut [u64],
    cfg: &[u32],
    time: u64,
    words: &[u32],
    p: &mut [u64],
    buf: &mut [u8],
    ring: &mut [u32],
) -> CSentWritten
    ensures { (result, s.new, p.new, buf.new, ring.new) ≡ send_and_write_export s.old cfg.now time words.now p.old buf.old ring.old }
{
    let number = settings::number(cfg);
    if number == 0 {
        if guard::both(state::fits(&s[..]), payload::fits(&p[..])) {
            let before = state::load(&s[..]);
            let asking = before.receiver;
            let due = asking.request_due;
            let done = before.send_and_write(
                settings::load(cfg),
                time,
                words,
                payload::load(&p[..]),
                buf,
                ring,
            );
            let stream = done.stream;
            let written = done.payload;
            let answer = done.answer;
            state::store_written(due, stream, s);
            payload::store(written, p);
            return sending::of_send_and_write(answer);
        }
        return sending::refused_sent_written(guard::INVALID_STATE);
    }
    sending::refused_sent_written(number)
}
