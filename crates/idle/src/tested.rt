// The next step, over settings and a timer that were tested.
ghost use Rattle.std.specs.Prelude.{◌≡◌, ◌≤◌, ◌<◌};
ghost use Rattle.config.specs.Settings.{check_of};
ghost use Rattle.idle.specs.Schedule.{grown_by, idle_next};

use super::idle::Idle;
use config::settings::StreamConfig;
use config::time::later_by;

// The interval times the growth, at most the last time.
fn grown(interval: u64, growth: u32) -> u64
    requires { 0 < growth }
    ensures { result ≡ grown_by growth interval }
{
    let times = growth as u64;
    if u64::MAX / times < interval {
        return u64::MAX;
    }
    interval * times
}

// The schedule after an idle command is queued: 1 + R at steps of T1, then K more, each step G times
// the one before.
pub fn next(cfg: StreamConfig, time: u64, i: Idle) -> Option<Idle>
    requires { (check_of cfg ≡ Ok tt) × (i.step ≤ 510) }
    ensures { result ≡ idle_next cfg time i }
{
    let step = i.step + 1;
    let repeats = cfg.fec_repeats as u16;
    let further = cfg.idle_further as u16;
    if step <= repeats {
        return Some(Idle {
            due: later_by(time, i.interval),
            step,
            interval: i.interval,
        });
    }
    if step < 1 + repeats + further {
        let interval = grown(i.interval, cfg.idle_growth);
        return Some(Idle {
            due: later_by(time, interval),
            step,
            interval,
        });
    }
    None
}
