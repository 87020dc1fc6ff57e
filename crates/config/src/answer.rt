// What a call answers is a `Result` whose error is a `Refusal`, and its number.
ghost use Rattle.std.specs.Prelude.{◌≡◌};
ghost use Rattle.config.specs.Refusals.{outcome_number};

use super::refusal::Refusal;

// 0, or the number of the refusal.
pub fn number(answer: Result<(), Refusal>) -> u8
    ensures { result ≡ outcome_number answer }
{
    match answer {
        Ok(()) => 0,
        Err(why) => why.number(),
    }
}
