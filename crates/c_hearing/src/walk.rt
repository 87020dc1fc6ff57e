// The commands of a payload, one after the other. Each has four words in `heard`: its place, the command
// as it was read, and what was answered.
ghost use Rattle.std.specs.Prelude.{◌≡◌, true, ◌+◌, ◌*◌, ◌/◌, ◌≤◌, length};
ghost use Rattle.config.specs.Settings.{check_of};
ghost use Rattle.packet.specs.Bytes.{words_of};
ghost use Rattle.packet.specs.Read.{next_of};
ghost use Rattle.c_state.specs.Stream.{fits};
ghost use Rattle.c_hearing.specs.Walk.{answered, cut_turn, whole_turn, turn_at, hear_from};

use super::figures::Figures;
use super::{figures, given};
use c_words::lent;
use command::parse;
use config::settings::StreamConfig;
use packet::cursor::{Cursor, Header, PacketItem};

// The words of an answer.
const ANSWER: usize = 4;

// The answers that stand in `heard`, and where the first command is that was not heard: at 0 there is
// none.
#[repr(C)]
#[derive(Clone, Copy)]
pub struct CHeard {
    pub next: u64,
    pub count: u64,
    pub refusal: u8,
}

// After a command: the answers, and the place of the next command. Where hearing ends, that of the first
// that was not heard, or 0: both are told either way, so the flag is no Option's.
#[derive(Clone, Copy)]
pub struct Turn {
    pub ends: bool,
    pub next: usize,
    pub count: usize,
}

// Puts an answer behind `count` others.
fn put(at: usize, read: u64, f: Figures, count: usize, heard: &mut [u64])
    requires { 4 * count + 4 ≤ length heard.old }
    ensures { heard.new ≡ answered heard.old count at read f }
{
    let words = [at as u64, read, f.first, f.second];
    lent::put(&words, heard, ANSWER * count);
}

// A command that is cut: it has an answer, and ends the payload.
fn cut(header: Header, at: usize, count: usize, heard: &mut [u64]) -> Turn
    ensures { (result, heard.new) ≡ cut_turn header at count heard.old }
{
    if heard.len() / ANSWER <= count {
        return Turn {
            ends: true,
            next: at,
            count,
        };
    }
    let read = figures::read(1, header.code, header.len, header.csd(), 0);
    put(at, read, figures::of_number(0), count, heard);
    Turn {
        ends: true,
        next: 0,
        count: count + 1,
    }
}

// A whole command with these bytes of words.
fn whole(
    cfg: StreamConfig,
    time: u64,
    ring: &[u32],
    header: Header,
    at: usize,
    next: usize,
    body: &[u8],
    count: usize,
    s: &mut [u64],
    heard: &mut [u64],
) -> Turn
    requires { (fits s.old ≡ true) × (check_of cfg ≡ Ok tt) }
    ensures { ((result, s.new, heard.new) ≡ whole_turn cfg time ring.now header at next (words_of body.now) count s.old heard.old) × (fits s.new ≡ true) }
{
    if heard.len() / ANSWER <= count {
        return Turn {
            ends: true,
            next: at,
            count,
        };
    }
    let command = parse::parse(header, body);
    let answer = given::give(cfg, time, ring, command, s);
    put(
        at,
        figures::of_command(header.len, command),
        answer,
        count,
        heard,
    );
    Turn {
        ends: false,
        next,
        count: count + 1,
    }
}

// What stands at a place.
fn hear_at(
    cfg: StreamConfig,
    time: u64,
    ring: &[u32],
    payload: &[u8],
    at: usize,
    count: usize,
    s: &mut [u64],
    heard: &mut [u64],
) -> Turn
    requires { (fits s.old ≡ true) × (check_of cfg ≡ Ok tt) }
    ensures { ((result, s.new, heard.new) ≡ turn_at (next_of payload.now at) cfg time ring.now payload.now at count s.old heard.old) × (fits s.new ≡ true) }
{
    let cursor = Cursor { at };
    match cursor.next(payload) {
        PacketItem::End => Turn {
            ends: true,
            next: 0,
            count,
        },
        PacketItem::Truncated(header) => cut(header, at, count, heard),
        PacketItem::Command { header, at, next } => {
            let from = at + 4;
            let end = next.at;
            whole(
                cfg,
                time,
                ring,
                header,
                at,
                end,
                &payload[from..end],
                count,
                s,
                heard,
            )
        }
    }
}

// Every command from a place on. A command has four bytes or more: there are no more turns than these.
pub fn hear(
    cfg: StreamConfig,
    time: u64,
    ring: &[u32],
    payload: &[u8],
    from: usize,
    s: &mut [u64],
    heard: &mut [u64],
) -> CHeard
    requires { (fits s.old ≡ true) × (check_of cfg ≡ Ok tt) }
    ensures { (result, s.new, heard.new) ≡ hear_from (length payload.now / 4) cfg time ring.now payload.now from 0 s.old heard.old }
{
    let mut at = from;
    let mut count = 0;
    for _ in 0..payload.len() / 4 {
        let done = hear_at(cfg, time, ring, payload, at, count, s, heard);
        if done.ends {
            return CHeard {
                next: done.next as u64,
                count: done.count as u64,
                refusal: 0,
            };
        }
        at = done.next;
        count = done.count;
    }
    CHeard {
        next: 0,
        count: count as u64,
        refusal: 0,
    }
}
