// From positions behind a number to the numbers there.
ghost use Rattle.std.specs.Prelude.{◌≡◌, ◌+◌, ◌-◌, ◌≤◌, ◌<◌};
ghost use Rattle.config.specs.Sequence.{turn};
ghost use Rattle.window.specs.Set.{val};
ghost use Rattle.window.specs.Window.{behind, span_of};

use super::set;
use super::set::Bits;
use super::window::SeqRange;
use config::sequence;
use config::sequence::SeqNum;

// The number at position k: k + 1 behind h.
pub fn number_at(h: SeqNum, k: u32) -> SeqNum
    requires { k + 1 < turn }
    ensures { result ≡ behind h (k + 1) }
{
    sequence::distance((k + 1) as u16, h)
}

// The numbers from position `oldest` to position `newest` behind h.
pub fn range_to(h: SeqNum, oldest: u32, newest: u32) -> SeqRange
    requires { (newest ≤ oldest) × (oldest + 1 < turn) }
    ensures { (result.first ≡ behind h (oldest + 1)) × (result.count ≡ oldest - newest + 1) }
{
    SeqRange {
        first: number_at(h, oldest),
        count: (oldest - newest + 1) as u16,
    }
}

// From the oldest to the newest position of m, behind h.
pub fn span_of(h: SeqNum, m: Bits) -> Option<SeqRange>
    ensures { result ≡ span_of h 0 (val m) }
{
    if set::empty(m) {
        return None;
    }
    Some(range_to(h, set::top(m), set::bottom(m)))
}
