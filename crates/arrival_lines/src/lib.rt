// Reads two-byte sequence numbers, big-endian, from standard input, gives them to a receive window of
// 64, and prints a line for each: number, N (New), L (Late) or D (Duplicate), gap, loss count, loss
// first (0 where there is none). An odd last byte adds the line `cut`.
//
// It streams: two buffers, whatever the length of the input.
#![tactic(auto)]

ghost use Rattle.std.specs.Prelude.{◌≡◌, ◌+◌, ◌*◌, ◌<◌, ◌≤◌, length};

use std::io;
use text::blocks;
use text::out::Output;
use window::window::{Class, ReceiveWindow, SeqRange};

fn letter(class: Class) -> u8 {
    match class {
        Class::New(_) => b'N',
        Class::Late => b'L',
        Class::Duplicate => b'D',
    }
}

fn gap(class: Class) -> u16 {
    match class {
        Class::New(gap) => gap,
        Class::Late => 0,
        Class::Duplicate => 0,
    }
}

fn range(lost: Option<SeqRange>) -> SeqRange {
    match lost {
        Some(range) => range,
        None => SeqRange { first: 0, count: 0 },
    }
}

fn digit(n: u16) -> u8 {
    b'0' + (n % 10) as u8
}

// Adds a byte, where there is room, and gives the place behind it.
fn byte(to: &mut [u8], at: usize, b: u8) -> usize
    requires { at ≤ length to.old }
    ensures { (result ≤ length to.new) × (length to.new ≡ length to.old) }
{
    if at < to.len() {
        to[at] = b;
        return at + 1;
    }
    at
}

// Adds the digit of `n` at this unit, unless it is a leading zero.
fn place<const UNIT: u16>(to: &mut [u8], at: usize, n: u16) -> usize
    requires { (0 < UNIT) × (at ≤ length to.old) }
    ensures { (result ≤ length to.new) × (length to.new ≡ length to.old) }
{
    if n < UNIT {
        at
    } else {
        byte(to, at, digit(n / UNIT))
    }
}

// Adds a number, without leading zeros.
fn decimal(to: &mut [u8], at: usize, n: u16) -> usize
    requires { at ≤ length to.old }
    ensures { (result ≤ length to.new) × (length to.new ≡ length to.old) }
{
    let at = place::<10000>(to, at, n);
    let at = place::<1000>(to, at, n);
    let at = place::<100>(to, at, n);
    let at = place::<10>(to, at, n);
    byte(to, at, digit(n))
}

// Adds a figure, and the blank after it.
fn figure(to: &mut [u8], at: usize, n: u16) -> usize
    requires { at ≤ length to.old }
    ensures { (result ≤ length to.new) × (length to.new ≡ length to.old) }
{
    let at = decimal(to, at, n);
    byte(to, at, b' ')
}

// The line of a number, and its length.
fn text(to: &mut [u8], seq: u16, class: Class, lost: SeqRange) -> usize
    ensures { (result ≤ length to.new) × (length to.new ≡ length to.old) }
{
    let at = figure(to, 0, seq);
    let at = byte(to, at, letter(class));
    let at = byte(to, at, b' ');
    let at = figure(to, at, gap(class));
    let at = figure(to, at, lost.count);
    let at = decimal(to, at, lost.first);
    byte(to, at, b'\n')
}

// Adds the line of a number. It has at most 26 bytes, and what waits is written where fewer than 64 are free. It goes
// into the block at once: each of the output's methods would answer whether output failed.
fn line(
    out: &mut Output<'_, impl Print>,
    seq: u16,
    class: Class,
    lost: SeqRange,
) -> io::Result<()> {
    let used = out.used;
    let n = text(&mut out.block[used..], seq, class, lost);
    out.used = used + n;
    out.room(64)
}

// One number arrives.
fn arrive(
    out: &mut Output<'_, impl Print>,
    window: ReceiveWindow,
    seq: u16,
) -> io::Result<ReceiveWindow> {
    let accepted = window.accept(seq);
    let answer = accepted.answer;
    match answer {
        Ok(taken) => line(out, seq, taken.class, range(taken.lost))?,
        Err(_) => (),
    }
    Ok(accepted.window)
}

// The higher byte comes first.
fn number(high: u8, low: u8) -> u16
    ensures { result ≡ high * 256 + low }
{
    u16::from_be_bytes([high, low])
}

// The lines of a block's numbers.
fn block(
    out: &mut Output<'_, impl Print>,
    first: ReceiveWindow,
    bytes: &[u8],
) -> io::Result<ReceiveWindow> {
    let mut window = first;
    for pair in bytes.chunks_exact(2) {
        window = arrive(out, window, number(pair[0], pair[1]))?;
    }
    out.flush()?;
    if bytes.len() % 2 == 1 {
        out.text(b"cut\n")?;
        out.flush()?;
    }
    Ok(window)
}

fn all(rt: &(impl Print + Input), first: ReceiveWindow) -> io::Result<()> {
    let mut input = [0u8; blocks::SIZE];
    let mut to = [0u8; blocks::SIZE];
    let mut out = Output::new(rt, &mut to);
    let mut window = first;
    blocks::each(rt, &mut input, |bytes| {
        window = block(&mut out, window, bytes)?;
        Ok(true)
    })
}

// Reads all of standard input.
pub fn run(rt: &(impl Print + Input)) -> io::Result<()> {
    match ReceiveWindow::new(64) {
        Ok(window) => all(rt, window),
        Err(_) => Ok(()),
    }
}
