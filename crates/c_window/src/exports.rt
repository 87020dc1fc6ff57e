// The calls of a receive window whose four words the caller lends in `w`: size, highest, bits low,
// bits high. 13 for words that are no window's.
ghost use Rattle.std.specs.Prelude.{◌≡◌, true, false, length};
ghost use Rattle.config.specs.Range.{within};
ghost use Rattle.config.specs.Sequence.{ahead};
ghost use Rattle.window.specs.Window.{Valid};
ghost use Rattle.window.specs.Arrival.{reach, accept_of};
ghost use Rattle.window.specs.Answers.{accept_answer};
ghost use Rattle.c_window.specs.Window.{window_fits, Narrow, window_at, window_words, is_duplicate, taken_into, accepted_as, started_into, start_export, accept_export};

use c_answers::answers;
use c_answers::answers::CDelivery;
use c_words::guard;
use c_words::lent::{put, renew};
use config::refusal::Refusal;
use config::sequence::SeqNum;
use window::set::Bits;
use window::window::{Arrival, Class, ReceiveWindow, Taken};

// The largest size of a window.
const LARGEST: u64 = 128;

// Whether there are four words, with a size that some window has and a highest number.
fn fits(words: &[u64]) -> bool
    ensures { result ≡ window_fits words.now }
{
    if words.len() != 4 {
        return false;
    }
    if LARGEST < words[0] {
        return false;
    }
    words[1] <= 0xFFFF
}

fn known(words: &[u64]) -> ReceiveWindow
    requires { Narrow words.now }
    ensures { result ≡ window_at words.now }
{
    ReceiveWindow {
        size: words[0] as u32,
        highest: words[1] as u16,
        bits: Bits {
            low: words[2],
            high: words[3],
        },
    }
}

// The window.
fn load(words: &[u64]) -> ReceiveWindow
    requires { window_fits words.now ≡ true }
    ensures { result ≡ window_at words.now }
{
    known(words)
}

// Stores the window into words that need have none yet.
fn store(window: ReceiveWindow, words: &mut [u64])
    requires { length words.old ≡ 4 }
    ensures { words.new ≡ window_words window }
{
    let bits = window.bits;
    let new = [
        window.size as u64,
        window.highest as u64,
        bits.low,
        bits.high,
    ];
    put(&new, words, 0);
}

// Stores what a call has left of the window: where that is what the words have, nothing.
fn renewed(window: ReceiveWindow, words: &mut [u64])
    requires { length words.old ≡ 4 }
    ensures { words.new ≡ window_words window }
{
    let bits = window.bits;
    let new = [
        window.size as u64,
        window.highest as u64,
        bits.low,
        bits.high,
    ];
    renew(&new, words, 0);
}

// Stores a window that was started.
fn start(w: &mut [u64], started: Result<ReceiveWindow, Refusal>) -> u8
    requires { length w.old ≡ 4 }
    ensures { (result, w.new) ≡ started_into started w.old }
{
    match started {
        Ok(window) => {
            store(window, w);
            0
        }
        Err(why) => why.number(),
    }
}

// A window of `size` numbers, 1 to 128; `highest` and all before it are processed. A fresh window
// has the highest 65535.
#[unsafe(no_mangle)]
pub extern "C" fn sirmjold_window_starting_at(w: &mut [u64], size: u32, highest: u16) -> u8
    ensures { (result, w.new) ≡ start_export w.old size highest }
{
    if w.len() == 4 {
        return start(w, ReceiveWindow::starting_at(size, highest));
    }
    guard::INVALID_STATE
}

// Stores the window that has taken a number.
fn take(taken: Arrival, w: &mut [u64]) -> Result<Taken, Refusal>
    requires { length w.old ≡ 4 }
    ensures { (result, w.new) ≡ taken_into taken }
{
    let window = taken.window;
    let class = taken.class;
    let lost = taken.lost;
    renewed(window, w);
    Ok(Taken { class, lost })
}

// A number ahead arrives.
fn take_ahead(before: ReceiveWindow, seq: SeqNum, w: &mut [u64]) -> Result<Taken, Refusal>
    requires { (length w.old ≡ 4) × Valid before × (within 1 reach (ahead before.highest seq) ≡ true) }
    ensures { (result, w.new) ≡ taken_into (accept_of before seq) }
{
    let lost = window::arrival::lost_to(before, seq);
    let window = window::arrival::moved_to(before, seq);
    let class = window::arrival::class_ahead(before, seq);
    take(
        Arrival {
            window,
            class,
            lost,
        },
        w,
    )
}

fn is_duplicate(class: Class) -> bool
    ensures { result ≡ is_duplicate class }
{
    match class {
        Class::Duplicate => true,
        Class::Late => false,
        Class::New(_) => false,
    }
}

// A number that is not ahead arrives: a duplicate changes nothing, and nothing is stored.
fn take_behind(before: ReceiveWindow, seq: SeqNum, w: &mut [u64]) -> Result<Taken, Refusal>
    requires { (length w.old ≡ 4) × (window_at w.old ≡ before) × Valid before × (within 1 reach (ahead before.highest seq) ≡ false) }
    ensures { (result, w.new) ≡ taken_into (accept_of before seq) }
{
    if is_duplicate(window::arrival::classify(before, seq)) {
        return Ok(Taken {
            class: Class::Duplicate,
            lost: None,
        });
    }
    take(window::arrival::accept_behind(before, seq), w)
}

// A number arrives at a window: it is processed now, unless it is a duplicate.
fn accept(before: ReceiveWindow, seq: SeqNum, w: &mut [u64]) -> Result<Taken, Refusal>
    requires { (length w.old ≡ 4) × (window_at w.old ≡ before) }
    ensures { (result, w.new) ≡ accepted_as (accept_answer before seq) }
{
    if window::tested::is_valid(before) {
        if window::arrival::in_order(before, seq) {
            return take(window::arrival::accept_next(before, seq), w);
        }
        if window::arrival::is_ahead(before, seq) {
            return take_ahead(before, seq, w);
        }
        return take_behind(before, seq, w);
    }
    Err(Refusal::InvalidState)
}

// A number arrives.
#[unsafe(no_mangle)]
pub extern "C" fn sirmjold_window_accept(w: &mut [u64], seq: u16) -> CDelivery
    ensures { (result, w.new) ≡ accept_export w.old seq }
{
    if fits(&w[..]) {
        let before = load(&w[..]);
        return answers::of_acceptance(accept(before, seq, w));
    }
    answers::refused_delivery(guard::INVALID_STATE)
}
