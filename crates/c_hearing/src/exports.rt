// Hearing a payload in one call. As in the other calls, settings and words are tested first; then 1 for a
// payload that does not begin with the signature. A refused call changes nothing.
ghost use Rattle.std.specs.Prelude.{◌≡◌};
ghost use Rattle.c_hearing.specs.Exports.{heard_refused, hear_export};

use super::walk;
use super::walk::CHeard;
use c_state::state;
use c_words::{guard, settings};
use read_command::next;

// The number of a payload without its signature.
const BAD_SIGNATURE: u8 = 1;

fn refused(n: u8) -> CHeard
    ensures { result ≡ heard_refused n }
{
    CHeard {
        next: 0,
        count: 0,
        refusal: n,
    }
}

// Gives each command of a payload, from the place `at` on, to its end; 0 is the first command's place.
#[unsafe(no_mangle)]
pub extern "C" fn sirmjold_stream_hear(
    s: &mut [u64],
    cfg: &[u32],
    time: u64,
    ring: &[u32],
    payload: &[u8],
    at: usize,
    heard: &mut [u64],
) -> CHeard
    ensures { (result, s.new, heard.new) ≡ hear_export s.old cfg.now time ring.now payload.now at heard.old }
{
    let number = settings::number(cfg);
    if number == 0 {
        if state::fits(&s[..]) {
            if next::opens(payload, at) {
                return walk::hear(
                    settings::load(cfg),
                    time,
                    ring,
                    payload,
                    next::first(at),
                    s,
                    heard,
                );
            }
            return refused(BAD_SIGNATURE);
        }
        return refused(guard::INVALID_STATE);
    }
    refused(number)
}
