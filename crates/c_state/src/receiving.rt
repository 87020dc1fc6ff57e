// A receiver's calls on its words. A call that changes nothing stores nothing.
ghost use Rattle.std.specs.Prelude.{◌≡◌, true, false};
ghost use Rattle.config.specs.Settings.{check_of};
ghost use Rattle.config.specs.Range.{within};
ghost use Rattle.config.specs.Sequence.{ahead};
ghost use Rattle.window.specs.Window.{Valid};
ghost use Rattle.window.specs.Arrival.{reach, in_order};
ghost use Rattle.receiver.specs.Receiver.{valid_of, rest_of, settled_of, heard_of, polled_of};
ghost use Rattle.receiver.specs.Answers.{data_answer, poll_answer};
ghost use Rattle.c_state.specs.Stream.{receiver_fits, receiver_in, with_receiver};
ghost use Rattle.c_state.specs.Receiving.{starts_timer, kept_of, heard_into, told_into, waits_of};

use super::receiver_part::{RECEIVER_WORDS, rests, window_in};
use super::state::{WORDS, receiver_in, store_receiver, store_rest, store_window};
use config::refusal::Refusal;
use config::sequence::SeqNum;
use config::settings::StreamConfig;
use receiver::receiver::{Delivery, Receiver, RequestTimer, StreamEvent};
use window::window::{Class, ReceiveWindow};

// Whether the windows are the same. By hand: a derived `==` would be two functions more in every crate above `window`.
fn same(a: ReceiveWindow, b: ReceiveWindow) -> bool
    ensures { result ≡ true → a ≡ b }
{
    a.size == b.size
        && a.highest == b.highest
        && a.bits.low == b.bits.low
        && a.bits.high == b.bits.high
}

// Whether the receiver is as at the start, but for this window.
fn at_rest(r: Receiver, window: ReceiveWindow) -> bool
    ensures { result ≡ true → r ≡ rest_of r.refused window }
{
    !r.request_due && r.timer.is_none() && r.asked.is_none() && same(r.window, window)
}

// Whether a number of this class starts the timer.
fn starts_timer(r: Receiver, cfg: StreamConfig, class: Class) -> bool
    ensures { result ≡ starts_timer r cfg class }
{
    receiver::tested::is_gap(class)
        && receiver::tested::enabled(r, cfg)
        && receiver::tested::restarts_timer(r.timer)
}

// Stores what a number of this class leaves of the receiver, whose window has taken it.
fn settle(
    r: Receiver,
    cfg: StreamConfig,
    time: u64,
    window: ReceiveWindow,
    class: Class,
    words: &mut [u64],
)
    requires { (receiver_fits words.old ≡ true) × (r ≡ receiver_in words.old) × Valid window }
    ensures { words.new ≡ with_receiver words.old (settled_of r cfg time window class) }
{
    if window::tested::complete(window) {
        store_rest(r.refused, window, words);
        return;
    }
    if starts_timer(r, cfg, class) {
        let started = Receiver {
            window,
            timer: Some(RequestTimer {
                due: receiver::tested::due_after(cfg.request_delay_ms, 0, time),
                sent: 0,
            }),
            ..r
        };
        store_receiver(started, words);
        return;
    }
    store_window(window, words);
}

// Stores what a number that starts no timer leaves.
fn settle_behind(r: Receiver, window: ReceiveWindow, words: &mut [u64])
    requires { (receiver_fits words.old ≡ true) × (r ≡ receiver_in words.old) × Valid window }
    ensures { words.new ≡ with_receiver words.old (kept_of r window) }
{
    if window::tested::complete(window) {
        if at_rest(r, window) {
            return;
        }
        store_rest(r.refused, window, words);
        return;
    }
    if same(r.window, window) {
        return;
    }
    store_window(window, words);
}

// A data command arrives: the next number, with nothing missing before it.
fn hear_next(
    r: Receiver,
    cfg: StreamConfig,
    time: u64,
    seq: SeqNum,
    words: &mut [u64],
) -> Result<Delivery, Refusal>
    requires { (receiver_fits words.old ≡ true) × (r ≡ receiver_in words.old) × (valid_of r ≡ true) × (in_order r.window seq ≡ true) }
    ensures { (result, words.new) ≡ heard_into words.old (heard_of r cfg time seq) }
{
    let taken = window::arrival::accept_next(r.window, seq);
    store_rest(r.refused, taken.window, words);
    Ok(Delivery {
        seq,
        class: taken.class,
        gap: receiver::tested::gap(r.window.highest, taken.class),
        lost: taken.lost,
    })
}

// A data command arrives: a number ahead.
fn hear_ahead(
    r: Receiver,
    cfg: StreamConfig,
    time: u64,
    seq: SeqNum,
    words: &mut [u64],
) -> Result<Delivery, Refusal>
    requires { (receiver_fits words.old ≡ true) × (r ≡ receiver_in words.old) × (valid_of r ≡ true) × (within 1 reach (ahead r.window.highest seq) ≡ true) }
    ensures { (result, words.new) ≡ heard_into words.old (heard_of r cfg time seq) }
{
    let lost = window::arrival::lost_to(r.window, seq);
    let window = window::arrival::moved_to(r.window, seq);
    let class = window::arrival::class_ahead(r.window, seq);
    settle(r, cfg, time, window, class, words);
    Ok(Delivery {
        seq,
        class,
        gap: receiver::tested::gap(r.window.highest, class),
        lost,
    })
}

// A data command arrives: a number that is not ahead.
fn hear_behind(
    r: Receiver,
    cfg: StreamConfig,
    time: u64,
    seq: SeqNum,
    words: &mut [u64],
) -> Result<Delivery, Refusal>
    requires { (receiver_fits words.old ≡ true) × (r ≡ receiver_in words.old) × (valid_of r ≡ true) × (within 1 reach (ahead r.window.highest seq) ≡ false) }
    ensures { (result, words.new) ≡ heard_into words.old (heard_of r cfg time seq) }
{
    let taken = window::arrival::accept_behind(r.window, seq);
    settle_behind(r, taken.window, words);
    Ok(Delivery {
        seq,
        class: taken.class,
        gap: receiver::tested::gap(r.window.highest, taken.class),
        lost: taken.lost,
    })
}

// A data command arrives, at a receiver that was tested.
fn hear_valid(
    r: Receiver,
    cfg: StreamConfig,
    time: u64,
    seq: SeqNum,
    words: &mut [u64],
) -> Result<Delivery, Refusal>
    requires { (receiver_fits words.old ≡ true) × (r ≡ receiver_in words.old) × (valid_of r ≡ true) }
    ensures { (result, words.new) ≡ heard_into words.old (heard_of r cfg time seq) }
{
    if window::arrival::in_order(r.window, seq) {
        return hear_next(r, cfg, time, seq, words);
    }
    if window::arrival::is_ahead(r.window, seq) {
        return hear_ahead(r, cfg, time, seq, words);
    }
    hear_behind(r, cfg, time, seq, words)
}

// A data command arrives.
pub fn hear(
    cfg: StreamConfig,
    time: u64,
    seq: SeqNum,
    words: &mut [u64],
) -> Result<Delivery, Refusal>
    requires { (receiver_fits words.old ≡ true) × (check_of cfg ≡ Ok tt) }
    ensures { (result, words.new) ≡ heard_into words.old (data_answer (receiver_in words.old) cfg time seq) }
{
    let before = receiver_in(&words[..]);
    if receiver::tested::is_valid(before) {
        return hear_valid(before, cfg, time, seq, words);
    }
    Err(Refusal::InvalidState)
}

// Runs the timer while it runs: before it is due nothing changes.
fn poll_running(
    r: Receiver,
    cfg: StreamConfig,
    time: u64,
    t: RequestTimer,
    words: &mut [u64],
) -> Result<Option<StreamEvent>, Refusal>
    requires { (receiver_fits words.old ≡ true) × (r ≡ receiver_in words.old) × (valid_of r ≡ true) × (r.timer ≡ Some t) }
    ensures { (result, words.new) ≡ told_into words.old (polled_of r cfg time) }
{
    if time < t.due {
        return Ok(None);
    }
    let done = receiver::tested::poll(r, cfg, time);
    store_receiver(done.receiver, words);
    done.answer
}

// Runs the timer of a receiver that was tested.
fn poll_valid(
    r: Receiver,
    cfg: StreamConfig,
    time: u64,
    words: &mut [u64],
) -> Result<Option<StreamEvent>, Refusal>
    requires { (receiver_fits words.old ≡ true) × (r ≡ receiver_in words.old) × (valid_of r ≡ true) }
    ensures { (result, words.new) ≡ told_into words.old (polled_of r cfg time) }
{
    match r.timer {
        None => Ok(None),
        Some(t) => poll_running(r, cfg, time, t, words),
    }
}

// Runs the timer.
pub fn poll(cfg: StreamConfig, time: u64, words: &mut [u64]) -> Result<Option<StreamEvent>, Refusal>
    requires { (receiver_fits words.old ≡ true) × (check_of cfg ≡ Ok tt) }
    ensures { (result, words.new) ≡ told_into words.old (poll_answer (receiver_in words.old) cfg time) }
{
    let before = receiver_in(&words[..]);
    if receiver::tested::is_valid(before) {
        return poll_valid(before, cfg, time, words);
    }
    Err(Refusal::InvalidState)
}

// Whether the words are a receiver's that was tested, and a poll at this time leaves it as it is.
pub fn waits(time: u64, words: &[u64]) -> bool
    ensures { result ≡ waits_of time words.now }
{
    if words.len() != WORDS {
        return false;
    }
    let receiver = &words[0..RECEIVER_WORDS];
    window::tested::is_valid(window_in(receiver)) && rests(time, receiver)
}
