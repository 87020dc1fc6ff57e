// The uplink as a C function, which include/sirmjold.h declares. Grants come by value, so that no memory is
// lent for them and none can be of a wrong length; the turn is the caller's to keep.
#![tactic(auto)]

ghost use Rattle.std.specs.Prelude.{◌≡◌};
ghost use Rattle.uplink.specs.Grants.{step_of};
ghost use Rattle.c_uplink.specs.Numbers.{numbers_of};

use uplink::grants::Step;

// A step: `refusal` is 0 or 18. Where it is 18 nothing is granted, and the turn is the one that was given.
#[repr(C)]
#[derive(Clone, Copy)]
pub struct CStep {
    pub grants: [u16; 8],
    pub turn: u16,
    pub refusal: u8,
}

fn numbers(step: Step) -> CStep
    ensures { result ≡ numbers_of step }
{
    let grants = step.grants;
    let answer = step.answer;
    CStep {
        grants,
        turn: step.turn,
        refusal: config::answer::number(answer),
    }
}

// One step with `words` words to grant to as many divisions as there are wants.
#[unsafe(no_mangle)]
pub extern "C" fn sirmjold_uplink_grant(words: u16, turn: u16, wants: &[u16]) -> CStep
    ensures { result ≡ numbers_of (step_of words turn wants.now) }
{
    let step = uplink::grants::grant(words, turn, wants);
    numbers(step)
}
