// The words of a receiver.
ghost use Rattle.std.specs.Prelude.{◌≡◌, true, ◌&&◌, ◌<◌, ◌≤◌, length, get_or};
ghost use Rattle.c_state.specs.Receiver.{holds_but_timer, receiver_holds, receiver_of, receiver_words, with_window, timer_in, asked_in, timer_words, asked_words};
ghost use Rattle.c_state.specs.Receiving.{not_due};

use super::pack::{Flags, flags_in, four, held, number, pair, two, word};
use command::retransmit::RetransmitRequest;
use receiver::receiver::{Receiver, RequestTimer};
use window::set::Bits;
use window::window::ReceiveWindow;

pub const RECEIVER_WORDS: usize = 7;

// The places of the words.
const LOW: usize = 0;

const HIGH: usize = 1;

const UPPER: usize = 2;

const TOP: usize = 3;

const DUE: usize = 4;

const FIGURES: usize = 5;

const SMALL: usize = 6;

// The largest number of 8 bits and four flags.
const MOST: u64 = 0xFFF;

// The figures of the request are those of a word from this number on.
const ASKED: u64 = 0x1_0000_0000;

// Whether the words are some receiver's, but for the figures of the timer.
// Test by test: the small figures are cast to 16 bits behind the test of their size.
fn fits_but_timer(words: &[u64]) -> bool
    requires { length words.now ≡ 7 }
    ensures { result ≡ holds_but_timer words.now }
{
    if words[UPPER] | words[TOP] != 0 {
        return false;
    }
    if MOST < words[SMALL] {
        return false;
    }
    let small = two(words[SMALL] as u16);
    let on = flags_in(small.high);
    held(on.asked, words[FIGURES] / ASKED, 0, 0)
}

// Whether the words are some receiver's.
pub fn fits(words: &[u64]) -> bool
    requires { length words.now ≡ 7 }
    ensures { result ≡ receiver_holds words.now }
{
    if fits_but_timer(words) {
        let small = two(words[SMALL] as u16);
        let on = flags_in(small.high);
        return held(on.timer, words[DUE], small.low as u64, 0);
    }
    false
}

// Whether the words are some receiver's, and a poll at this time leaves its timer as it is.
pub fn rests(time: u64, words: &[u64]) -> bool
    requires { length words.now ≡ 7 }
    ensures { result ≡ receiver_holds words.now && not_due (receiver_of words.now).timer time }
{
    if fits_but_timer(words) {
        let small = two(words[SMALL] as u16);
        let on = flags_in(small.high);
        if on.timer {
            return time < words[DUE];
        }
        return held(false, words[DUE], small.low as u64, 0);
    }
    false
}

// The request timer.
fn timer_in(on: bool, due: u64, sent: u8) -> Option<RequestTimer>
    ensures { result ≡ timer_in on due sent }
{
    on.then_some(RequestTimer { due, sent })
}

// The request that has no answer yet.
fn asked_in(on: bool, seq: u16, count: u16) -> Option<RetransmitRequest>
    ensures { result ≡ asked_in on seq count }
{
    on.then_some(RetransmitRequest { seq, count })
}

// The window of the words.
pub fn window_in(words: &[u64]) -> ReceiveWindow
    requires { length words.now ≡ 7 }
    ensures { result ≡ (receiver_of words.now).window }
{
    let figures = four(words[FIGURES]);
    ReceiveWindow {
        size: figures.b as u32,
        highest: figures.a,
        bits: Bits {
            low: words[LOW],
            high: words[HIGH],
        },
    }
}

// The receiver of words that fit.
pub fn load(words: &[u64]) -> Receiver
    requires { (length words.now ≡ 7) × (get_or words.now 6 0 ≤ 4095) }
    ensures { result ≡ receiver_of words.now }
{
    let figures = four(words[FIGURES]);
    let small = two(words[SMALL] as u16);
    let on = flags_in(small.high);
    Receiver {
        window: window_in(words),
        timer: timer_in(on.timer, words[DUE], small.low),
        request_due: on.request_due,
        refused: on.refused,
        asked: asked_in(on.asked, figures.c, figures.d),
    }
}

// The figures of the request timer, which are 0 where none runs: in words, the flag stands apart.
#[derive(Clone, Copy)]
struct TimerWords {
    on: bool,
    due: u64,
    sent: u8,
}

fn timer_words(timer: Option<RequestTimer>) -> TimerWords
    ensures { result ≡ timer_words timer }
{
    match timer {
        None => TimerWords {
            on: false,
            due: 0,
            sent: 0,
        },
        Some(t) => TimerWords {
            on: true,
            due: t.due,
            sent: t.sent,
        },
    }
}

// The figures of the request that has no answer yet, the flag apart as above.
#[derive(Clone, Copy)]
struct AskedWords {
    on: bool,
    seq: u16,
    count: u16,
}

fn asked_words(asked: Option<RetransmitRequest>) -> AskedWords
    ensures { result ≡ asked_words asked }
{
    match asked {
        None => AskedWords {
            on: false,
            seq: 0,
            count: 0,
        },
        Some(r) => AskedWords {
            on: true,
            seq: r.seq,
            count: r.count,
        },
    }
}

// The words of a receiver.
pub fn words_of(receiver: Receiver) -> [u64; 7]
    requires { receiver.window.size < 65536 }
    ensures { result ≡ receiver_words receiver }
{
    let window = receiver.window;
    let timer = timer_words(receiver.timer);
    let asked = asked_words(receiver.asked);
    let on = number(Flags {
        timer: timer.on,
        request_due: receiver.request_due,
        refused: receiver.refused,
        asked: asked.on,
    });
    [
        window.bits.low,
        window.bits.high,
        0,
        0,
        timer.due,
        word(window.highest, window.size as u16, asked.seq, asked.count),
        pair(timer.sent, on) as u64,
    ]
}

// The words of a receiver with another window.
pub fn with_window(window: ReceiveWindow, words: &[u64]) -> [u64; 7]
    requires { (length words.now ≡ 7) × (receiver_holds words.now ≡ true) × (window.size < 65536) }
    ensures { result ≡ receiver_words (with_window (receiver_of words.now) window) }
{
    let figures = four(words[FIGURES]);
    [
        window.bits.low,
        window.bits.high,
        words[UPPER],
        words[TOP],
        words[DUE],
        word(window.highest, window.size as u16, figures.c, figures.d),
        words[SMALL],
    ]
}
