// An event that has no reason, as one word:
//
//     | first | number | count | kind, refusal |     16 bits each, the last two 8 bits each
//
// C takes an event in two registers, and the word differs from the first only where the count stands.
ghost use Rattle.std.specs.Prelude.{◌≡◌};
ghost use Rattle.c_stream.specs.EventWord.{event_in};

use c_answers::answers::CEvent;
use c_state::pack::{four, pair, two, word};

pub fn packed(e: CEvent) -> u64
    requires { e.reason ≡ 0 }
    ensures { event_in result ≡ e }
{
    word(pair(e.refusal, e.kind), e.count, e.seq, e.first)
}

pub fn unpacked(w: u64) -> CEvent
    ensures { result ≡ event_in w }
{
    let figures = four(w);
    let small = two(figures.a);
    CEvent {
        refusal: small.low,
        kind: small.high,
        reason: 0,
        seq: figures.c,
        first: figures.d,
        count: figures.b,
    }
}
