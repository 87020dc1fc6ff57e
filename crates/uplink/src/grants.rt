// The grants of one step.
ghost use Rattle.std.specs.Prelude.{◌≡◌, ◌+◌, ◌-◌, ◌≤◌, ◌<◌, min, length};
ghost use Rattle.std.proofs.lemmas.List.Edits.{sets};
ghost use Rattle.uplink.specs.Grants.{sum, firsts, granted, left_of, next_of, step_of};

use config::range::outside;
use config::refusal::Refusal;

// The most divisions.
pub const DIVISIONS: usize = 8;

#[derive(Clone, Copy)]
pub struct Step {
    // The words of each division; places past the last are 0.
    pub grants: [u16; 8],
    // The turn of the next step; the same where this one was refused.
    pub turn: u16,
    pub answer: Result<(), Refusal>,
}

// What a row of divisions was granted, and what it left.
#[derive(Clone, Copy)]
struct Served {
    grants: [u16; 8],
    left: u16,
}

// What the first grants leave of `words`.
fn rest(words: u16, share: u16, wants: &[u16]) -> u16
    requires { sum (firsts share wants.now) ≤ words }
    ensures { result ≡ words - sum (firsts share wants.now) }
{
    let mut left = words;
    for &want in wants {
        left -= want.min(share);
    }
    left
}

// Serves a row of divisions, of which the first is division `at`, with what is left.
fn serve(share: u16, words: u16, row: &[u16], at: usize, before: [u16; 8]) -> Served
    requires { at + length row.now ≤ 8 }
    ensures { result ≡ record { grants = sets before at (granted share words row.now); left = left_of share words row.now } }
{
    let mut grants = before;
    let mut left = words;
    for (i, &want) in row.iter().enumerate() {
        let first = want.min(share);
        let more = (want - first).min(left);
        grants[at + i] = first + more;
        left -= more;
    }
    Served { grants, left }
}

// The turn moves on by one, past the last division to 0.
#[tactic(auto, unfolding(crate::specs::Grants::next_of))]
fn next(turn: u16, n: usize) -> u16
    requires { turn < 0xFFFF }
    ensures { result ≡ next_of n turn }
{
    if usize::from(turn) + 1 < n {
        turn + 1
    } else {
        0
    }
}

// One step with `words` words to grant.
#[tactic(auto, unfolding(crate::specs::Grants::step_of, crate::specs::Grants::allowed))]
pub fn grant(words: u16, turn: u16, wants: &[u16]) -> Step
    ensures { result ≡ step_of words turn wants.now }
{
    let n = wants.len();
    let first = turn as usize;
    if outside(1, DIVISIONS, n) || n <= first {
        return Step {
            grants: [0; 8],
            turn,
            answer: Err(Refusal::DivisionsNotAllowed),
        };
    }
    let share = words / (n as u16);
    let left = rest(words, share, wants);
    let from = serve(share, left, &wants[first..], first, [0; 8]);
    let late = from.grants;
    let round = serve(share, from.left, &wants[..first], 0, late);
    let grants = round.grants;
    Step {
        grants,
        turn: next(turn, n),
        answer: Ok(()),
    }
}
