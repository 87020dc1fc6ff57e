// What every C function asks of words that it is lent.
ghost use Rattle.std.specs.Prelude.{◌≡◌, ◌&&◌};

// The number of words that are no state's.
pub const INVALID_STATE: u8 = 13;

// Whether the words of a state fit, and those of a payload.
pub fn both(state: bool, payload: bool) -> bool
    ensures { result ≡ state && payload }
{
    if state {
        return payload;
    }
    false
}
