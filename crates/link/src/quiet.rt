// Whether an end rests in a step: it has nothing to queue, to write or to poll for, and is left as it is, untested.
ghost use Rattle.std.specs.Prelude.{◌≡◌};
ghost use Rattle.link.specs.Rests.{idle_rests, timer_rests, quiet_of, no_error, console_rests, chamber_rests};

use command::retransmit::RetransmitError;
use idle::idle::Idle;
use load::load::Load;
use receiver::receiver::RequestTimer;
use stream::stream::DataStream;

// No idle command is due.
fn idle_rests(idle: Option<Idle>, time: u64) -> bool
    ensures { result ≡ idle_rests idle time }
{
    match idle {
        None => true,
        Some(i) => time < i.due,
    }
}

// A poll has nothing to do.
fn timer_rests(timer: Option<RequestTimer>, time: u64) -> bool
    ensures { result ≡ timer_rests timer time }
{
    match timer {
        None => true,
        Some(t) => time < t.due,
    }
}

// Nothing is to be written: no request is due, no command is unwritten, no request waits, no idle command is due.
#[tactic(auto, unfolding(crate::specs::Rests::quiet_of))]
fn quiet(s: DataStream, time: u64) -> bool
    ensures { result ≡ quiet_of s time }
{
    !s.receiver.request_due
        && s.sender.unsent == 0
        && s.sender.queue.len == 0
        && idle_rests(s.sender.idle, time)
}

fn no_error(waiting: Option<RetransmitError>) -> bool
    ensures { result ≡ no_error waiting }
{
    waiting.is_none()
}

// The console, with the load's value and the error that waits.
#[tactic(auto, unfolding(crate::specs::Rests::console_rests))]
pub fn console_rests(s: DataStream, time: u64, load: Load, waiting: Option<RetransmitError>) -> bool
    ensures { result ≡ console_rests s time load.last waiting }
{
    no_error(waiting) && load.words().count == 0 && quiet(s, time)
}

// The chamber, which has read.
#[tactic(auto, unfolding(crate::specs::Rests::chamber_rests))]
pub fn chamber_rests(s: DataStream, time: u64) -> bool
    ensures { result ≡ chamber_rests s time }
{
    timer_rests(s.receiver.timer, time) && quiet(s, time)
}
