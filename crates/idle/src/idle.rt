// The idle timer, none where it is off, and what is asked of it.
ghost use Rattle.std.specs.Prelude.{◌≡◌};
ghost use Rattle.idle.specs.Schedule.{idle_ok, is_due, idle_start};

use config::settings::StreamConfig;
use config::time::later_by;

// The most idle commands that are queued while one more is due: R + K.
const MAX_STEP: u16 = 510;

#[derive(Clone, Copy)]
pub struct Idle {
    // When the next idle command is due, in ms.
    pub due: u64,
    // Idle commands queued since the last command with words, at most 510.
    pub step: u16,
    // The step's length, in ms.
    pub interval: u64,
}

// The schedule after a command with words is written: the first idle command is due T1 later.
pub fn start(cfg: StreamConfig, time: u64) -> Option<Idle>
    ensures { result ≡ idle_start cfg time }
{
    let interval = cfg.idle_interval_ms as u64;
    Some(Idle {
        due: later_by(time, interval),
        step: 0,
        interval,
    })
}

// The schedule's part of the state test.
pub fn state_ok(timer: Option<Idle>) -> bool
    ensures { result ≡ idle_ok timer }
{
    timer.is_none_or(|i| i.step <= MAX_STEP)
}

pub fn is_due(timer: Option<Idle>, time: u64) -> bool
    ensures { result ≡ is_due timer time }
{
    timer.is_some_and(|i| i.due <= time)
}
