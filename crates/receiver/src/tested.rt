// The calls over settings and a state that were tested: `is_valid` is the test of the state, and the
// others require what it says.
ghost use Rattle.std.specs.Prelude.{◌≡◌, true, false, ◌^◌, ◌≤◌, min, length};
ghost use Rattle.config.specs.Range.{within};
ghost use Rattle.config.specs.Sequence.{ahead};
ghost use Rattle.packet.specs.Write.{valid_of as payload_valid};
ghost use Rattle.window.specs.Window.{Valid};
ghost use Rattle.window.specs.Arrival.{reach, in_order};
ghost use Rattle.receiver.specs.Receiver.{valid_of, rest_of, fresh_of, enabled_of, due_after, gap_of, is_gap, restarts, settled_of, heard_of, quiet_of, gave_up, polled_at, polled_of, error_to, error_of, marked_by, nak_of, with_asked, not_due, no_fit, offered_of, taken_of, deadline_of};

use super::receiver::{
    Delivery, Receiver, ReceiverAnswer, Request, RequestTimer, RequestWritten, StreamEvent,
};
use command::retransmit::{RetransmitError, RetransmitRequest};
use config::refusal::Refusal;
use config::sequence;
use config::sequence::SeqNum;
use config::settings::StreamConfig;
use config::time::later_by;
use packet::writer::PayloadWriter;
use window::window::{Class, ReceiveWindow, SeqRange};

// The state test: that of the window.
#[tactic(auto, unfolding(crate::specs::Receiver::valid_of))]
pub fn is_valid(r: Receiver) -> bool
    ensures { result ≡ valid_of r }
{
    window::tested::is_valid(r.window)
}

// All but the window as at the start.
pub fn rest(refused: bool, window: ReceiveWindow) -> Receiver
    ensures { result ≡ rest_of refused window }
{
    Receiver {
        window,
        timer: None,
        request_due: false,
        refused,
        asked: None,
    }
}

pub fn reset(r: Receiver) -> Receiver
    requires { valid_of r ≡ true }
    ensures { result ≡ fresh_of r.window.size }
{
    rest(false, window::tested::starting_at(r.window.size, 0xFFFF))
}

// Whether this side may ask for what is missing.
pub fn enabled(r: Receiver, cfg: StreamConfig) -> bool
    ensures { result ≡ enabled_of r cfg }
{
    cfg.retransmit && !r.refused
}

// 2 to the number of requests, at most 2^32.
fn doubled(sent: u8) -> u64
    ensures { (result ≡ 2 ^ min sent 32) × (result ≤ 4294967296) }
{
    1u64 << (sent.min(32) as u32)
}

// When the step after `sent` requests is due: D, 2D, 4D and on, from now.
#[tactic(auto, unfolding(crate::specs::Receiver::due_after))]
pub fn due_after(delay: u32, sent: u8, time: u64) -> u64
    ensures { result ≡ due_after delay sent time }
{
    later_by(time, (delay as u64) * doubled(sent))
}

// The numbers skipped between the old highest and a new one.
pub fn gap(highest: SeqNum, class: Class) -> Option<SeqRange>
    ensures { result ≡ gap_of highest class }
{
    match class {
        Class::New(count) if 0 < count => Some(SeqRange {
            first: sequence::add(highest, 1),
            count,
        }),
        _ => None,
    }
}

pub fn is_gap(class: Class) -> bool
    ensures { result ≡ is_gap class }
{
    matches!(class, Class::New(count) if 0 < count)
}

// Whether a new gap starts this timer: none runs, or the running one has made a request due.
pub fn restarts_timer(timer: Option<RequestTimer>) -> bool
    ensures { result ≡ restarts timer }
{
    timer.is_none_or(|t| 0 < t.sent)
}

// The receiver after its window has taken a number of this class.
#[tactic(auto, unfolding(crate::specs::Receiver::settled_of))]
fn settled(
    r: Receiver,
    cfg: StreamConfig,
    time: u64,
    window: ReceiveWindow,
    class: Class,
) -> Receiver
    requires { Valid window }
    ensures { result ≡ settled_of r cfg time window class }
{
    if window::tested::complete(window) {
        return rest(r.refused, window);
    }
    if is_gap(class) && enabled(r, cfg) && restarts_timer(r.timer) {
        return Receiver {
            window,
            timer: Some(RequestTimer {
                due: due_after(cfg.request_delay_ms, 0, time),
                sent: 0,
            }),
            ..r
        };
    }
    Receiver { window, ..r }
}

pub fn on_ump_data(
    r: Receiver,
    cfg: StreamConfig,
    time: u64,
    seq: SeqNum,
) -> ReceiverAnswer<Delivery>
    requires { valid_of r ≡ true }
    ensures { result ≡ heard_of r cfg time seq }
{
    if window::arrival::in_order(r.window, seq) {
        return heard_next(r, cfg, time, seq);
    }
    if window::arrival::is_ahead(r.window, seq) {
        return heard_ahead(r, cfg, time, seq);
    }
    heard_behind(r, cfg, time, seq)
}

// Hears the next number with nothing missing before it: nothing is missing after it.
#[tactic(auto, unfolding(crate::specs::Receiver::heard_of))]
fn heard_next(r: Receiver, cfg: StreamConfig, time: u64, seq: SeqNum) -> ReceiverAnswer<Delivery>
    requires { (valid_of r ≡ true) × (in_order r.window seq ≡ true) }
    ensures { result ≡ heard_of r cfg time seq }
{
    let taken = window::arrival::accept_next(r.window, seq);
    ReceiverAnswer {
        receiver: rest(r.refused, taken.window),
        answer: Ok(Delivery {
            seq,
            class: taken.class,
            gap: gap(r.window.highest, taken.class),
            lost: taken.lost,
        }),
    }
}

// Hears a number ahead: the window moves up to it.
#[tactic(auto, unfolding(crate::specs::Receiver::heard_of))]
fn heard_ahead(r: Receiver, cfg: StreamConfig, time: u64, seq: SeqNum) -> ReceiverAnswer<Delivery>
    requires { (valid_of r ≡ true) × (within 1 reach (ahead r.window.highest seq) ≡ true) }
    ensures { result ≡ heard_of r cfg time seq }
{
    let lost = window::arrival::lost_to(r.window, seq);
    let window = window::arrival::moved_to(r.window, seq);
    let class = window::arrival::class_ahead(r.window, seq);
    ReceiverAnswer {
        receiver: settled(r, cfg, time, window, class),
        answer: Ok(Delivery {
            seq,
            class,
            gap: gap(r.window.highest, class),
            lost,
        }),
    }
}

// Hears a number that is not ahead: nothing leaves the window.
#[tactic(auto, unfolding(crate::specs::Receiver::heard_of))]
fn heard_behind(r: Receiver, cfg: StreamConfig, time: u64, seq: SeqNum) -> ReceiverAnswer<Delivery>
    requires { (valid_of r ≡ true) × (within 1 reach (ahead r.window.highest seq) ≡ false) }
    ensures { result ≡ heard_of r cfg time seq }
{
    let taken = window::arrival::accept_behind(r.window, seq);
    ReceiverAnswer {
        receiver: settled(r, cfg, time, taken.window, taken.class),
        answer: Ok(Delivery {
            seq,
            class: taken.class,
            gap: gap(r.window.highest, taken.class),
            lost: taken.lost,
        }),
    }
}

fn quiet(r: Receiver) -> ReceiverAnswer<Option<StreamEvent>>
    ensures { result ≡ quiet_of r }
{
    ReceiverAnswer {
        receiver: r,
        answer: Ok(None),
    }
}

// Reports what is missing, and marks all as processed.
#[tactic(auto, unfolding(crate::specs::Receiver::gave_up))]
fn give_up(refused: bool, window: ReceiveWindow) -> ReceiverAnswer<Option<StreamEvent>>
    requires { Valid window }
    ensures { result ≡ gave_up refused window }
{
    ReceiverAnswer {
        receiver: rest(refused, window::tested::mark_all(window)),
        answer: Ok(window::tested::missing(window).map(|range| StreamEvent::DataLoss(range))),
    }
}

#[tactic(auto, unfolding(crate::specs::Receiver::polled_of))]
pub fn poll(r: Receiver, cfg: StreamConfig, time: u64) -> ReceiverAnswer<Option<StreamEvent>>
    requires { valid_of r ≡ true }
    ensures { result ≡ polled_of r cfg time }
{
    match r.timer {
        None => quiet(r),
        Some(t) => poll_running(r, cfg, time, t),
    }
}

// A poll while the timer runs.
fn poll_running(
    r: Receiver,
    cfg: StreamConfig,
    time: u64,
    t: RequestTimer,
) -> ReceiverAnswer<Option<StreamEvent>>
    requires { valid_of r ≡ true }
    ensures { result ≡ polled_at r cfg time (Some t) }
{
    if time < t.due {
        return quiet(r);
    }
    if window::tested::complete(r.window) {
        return quiet(rest(r.refused, r.window));
    }
    if t.sent < cfg.max_requests && enabled(r, cfg) {
        let sent = t.sent + 1;
        return quiet(Receiver {
            timer: Some(RequestTimer {
                due: due_after(cfg.request_delay_ms, sent, time),
                sent,
            }),
            request_due: true,
            ..r
        });
    }
    give_up(r.refused, r.window)
}

#[tactic(auto, unfolding(crate::specs::Receiver::error_of))]
pub fn on_retransmit_error(r: Receiver, err: RetransmitError) -> ReceiverAnswer<Option<StreamEvent>>
    requires { valid_of r ≡ true }
    ensures { result ≡ error_of r err }
{
    match r.asked {
        None => ReceiverAnswer {
            receiver: r,
            answer: Ok(Some(StreamEvent::RetransmitError(err))),
        },
        Some(req) => error_to(r, err, req),
    }
}

// An error while a request is unanswered: what that asked for and is missing is lost.
fn error_to(
    r: Receiver,
    err: RetransmitError,
    req: RetransmitRequest,
) -> ReceiverAnswer<Option<StreamEvent>>
    requires { valid_of r ≡ true }
    ensures { result ≡ error_to r err (Some req) }
{
    let marked = window::tested::mark_range(
        r.window,
        SeqRange {
            first: req.seq,
            count: req.count,
        },
    );
    ReceiverAnswer {
        receiver: marked_by(r, marked.window),
        answer: Ok(Some(match marked.span {
            None => StreamEvent::RetransmitError(err),
            Some(range) => StreamEvent::ErrorLoss(range, err),
        })),
    }
}

// The receiver after an error has marked its window.
fn marked_by(r: Receiver, window: ReceiveWindow) -> Receiver
    requires { Valid window }
    ensures { result ≡ marked_by r window }
{
    if window::tested::complete(window) {
        return rest(r.refused, window);
    }
    Receiver {
        window,
        asked: None,
        ..r
    }
}

#[tactic(auto, unfolding(crate::specs::Receiver::nak_of))]
pub fn on_retransmit_nak(r: Receiver) -> ReceiverAnswer<Option<StreamEvent>>
    requires { valid_of r ≡ true }
    ensures { result ≡ nak_of r }
{
    match r.asked {
        None => quiet(rest(true, r.window)),
        Some(_) => give_up(true, r.window),
    }
}

// The receiver with no request due, and `asked` unanswered.
fn with_asked(r: Receiver, asked: Option<RetransmitRequest>) -> Receiver
    ensures { result ≡ with_asked r asked }
{
    Receiver {
        request_due: false,
        asked,
        ..r
    }
}

fn not_due(r: Receiver, p: PayloadWriter) -> RequestWritten
    ensures { result ≡ not_due r p }
{
    RequestWritten {
        receiver: r,
        payload: p,
        answer: Ok(Request::Nothing),
    }
}

#[tactic(auto, unfolding(crate::specs::Receiver::taken_of))]
pub fn write_request(
    r: Receiver,
    cfg: StreamConfig,
    p: PayloadWriter,
    buf: &mut [u8],
) -> RequestWritten
    requires { (valid_of r ≡ true) × (payload_valid p (length buf.old) ≡ true) }
    ensures { (result, buf.new) ≡ taken_of r cfg p buf.old }
{
    if !r.request_due {
        return not_due(r, p);
    }
    if !enabled(r, cfg) {
        return not_due(with_asked(r, r.asked), p);
    }
    match window::tested::request(r.window) {
        None => not_due(with_asked(r, r.asked), p),
        Some(range) => offer(
            r,
            RetransmitRequest {
                seq: range.first,
                count: range.count,
            },
            p,
            buf,
        ),
    }
}

// Writes the request; it stays due where it does not fit.
#[tactic(auto, unfolding(crate::specs::Receiver::offered_of))]
fn offer(r: Receiver, req: RetransmitRequest, p: PayloadWriter, buf: &mut [u8]) -> RequestWritten
    requires { payload_valid p (length buf.old) ≡ true }
    ensures { (result, buf.new) ≡ offered_of r req p buf.old }
{
    let wrote = command::tested::write_request(req, p, buf);
    match wrote.answer {
        Ok(()) => RequestWritten {
            receiver: with_asked(r, Some(req)),
            payload: wrote.payload,
            answer: Ok(Request::Written),
        },
        Err(_) => RequestWritten {
            receiver: r,
            payload: wrote.payload,
            answer: no_fit(wrote.payload),
        },
    }
}

// 3 for an empty payload, and "more" for one that holds something.
fn no_fit(p: PayloadWriter) -> Result<Request, Refusal>
    ensures { result ≡ no_fit p }
{
    if p.len == 0 {
        return Err(Refusal::TooLarge);
    }
    Ok(Request::More)
}

#[tactic(auto, unfolding(crate::specs::Receiver::deadline_of))]
pub fn next_deadline(r: Receiver) -> Result<Option<u64>, Refusal>
    ensures { result ≡ deadline_of r }
{
    Ok(r.timer.map(|t| t.due))
}
