// Times, in ms: 64 bits, and a sum past the last one is the last one.
ghost use Rattle.std.specs.Prelude.{◌≡◌};
ghost use Rattle.config.specs.Time.{later};

// The time `wait` after `time`, at most the last one.
pub fn later_by(time: u64, wait: u64) -> u64
    ensures { result ≡ later time wait }
{
    if u64::MAX - time < wait {
        return u64::MAX;
    }
    time + wait
}
