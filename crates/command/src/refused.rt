// The answer to a write that is refused.
ghost use Rattle.std.specs.Prelude.{◌≡◌};
ghost use Rattle.packet.specs.Write.{refused_of};

use config::refusal::Refusal;
use packet::writer::{PayloadWriter, Wrote};

// The payload as it was, and why.
pub fn refused(p: PayloadWriter, why: Refusal) -> Wrote
    ensures { result ≡ refused_of p why }
{
    Wrote {
        payload: p,
        answer: Err(why),
    }
}
