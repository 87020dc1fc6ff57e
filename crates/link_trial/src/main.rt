// Runs on a pretend link, a line for each:
//
//   T1 G K R X D M SIZE W C Q SEED DROP FIGURE BUDGET     answers     STEPS HANDED LOSSES
//
// settings, sizes, the load's seed and the line's, the figure below which the line drops, and the steps to do; then
// the steps done, commands handed on and losses reported.
//
//   100 2 5 2 1 10 3 64 64 256 4 1 2 255 3000             3000 15 20
//
// All are decimal. K, R and M have 8 bits, X is 0 or 1, FIGURE has 16 bits, the others have 32. A run that is refused
// answers `refused N`. Empty lines and those that begin with # answer nothing; a line that is none of these answers `bad`.
#![tactic(auto)]

use config::refusal::Refusal;
use config::settings::StreamConfig;
use link::link::run;
use link_rules::run::Report;
use std::io;
use std::io::Write;
use text::fields::Fields;
use text::lines::Lines;
use text::out::Output;
use text::{blocks, lines};

// The most words of a history.
const MOST: usize = 32768;

// The run that a line asks for.
#[derive(Clone, Copy)]
struct Given {
    settings: StreamConfig,
    window: u32,
    words: usize,
    places: usize,
    seed: u32,
    drop: u32,
    figure: u32,
    budget: u32,
}

fn byte(fields: &mut Fields<'_>) -> Option<u8> {
    Some(fields.figure(0xFF)? as u8)
}

fn word(fields: &mut Fields<'_>) -> Option<u32> {
    Some(fields.figure(0xFFFF_FFFF)? as u32)
}

// T1 G K R X D M SIZE
fn settings(fields: &mut Fields<'_>) -> Option<StreamConfig> {
    Some(StreamConfig {
        idle_interval_ms: word(fields)?,
        idle_growth: word(fields)?,
        idle_further: byte(fields)?,
        fec_repeats: byte(fields)?,
        retransmit: fields.figure(1)? == 1,
        request_delay_ms: word(fields)?,
        max_requests: byte(fields)?,
        max_command_words: word(fields)? as usize,
    })
}

// The settings, and the rest: W C Q SEED DROP FIGURE BUDGET
fn asked(line: &[u8]) -> Option<Given> {
    if lines::LIMIT < line.len() {
        return None;
    }
    let mut fields = Fields::new(line);
    let given = Given {
        settings: settings(&mut fields)?,
        window: word(&mut fields)?,
        words: word(&mut fields)? as usize,
        places: word(&mut fields)? as usize,
        seed: word(&mut fields)?,
        drop: word(&mut fields)?,
        figure: fields.figure(0xFFFF)? as u32,
        budget: word(&mut fields)?,
    };
    fields.is_done().then_some(given)
}

// The run. This function alone holds the histories. With more words than a start takes, a run is refused by their number.
fn trial(t: Given) -> Result<Report, Refusal> {
    let mut ring = [0u32; MOST];
    let mut other = [0u32; MOST];
    let n = t.words.min(MOST);
    run(
        t.settings,
        t.window,
        t.words,
        t.places,
        t.seed,
        t.drop,
        t.figure,
        t.budget,
        &mut ring[..n],
        &mut other[..n],
    )
}

fn said(out: &mut impl Write, ran: Result<Report, Refusal>) -> io::Result<()> {
    match ran {
        Ok(r) => writeln!(out, "{} {} {}", r.steps, r.handed, r.losses),
        Err(why) => writeln!(out, "refused {}", why.number()),
    }
}

// The answer to a line.
fn answer(out: &mut impl Write, line: &[u8]) -> io::Result<()> {
    match asked(line) {
        Some(given) => said(out, trial(given)),
        None => writeln!(out, "bad"),
    }
}

fn main(rt: HostRuntime) -> io::Result<()> {
    let mut input = [0u8; blocks::SIZE];
    let mut to = [0u8; blocks::SIZE];
    let mut line = [0u8; 4098];
    let mut lines = Lines::new(&rt, &mut input, &mut line);
    lines.each(
        &mut Output::new(&rt, &mut to),
        |out, line| answer(out, line),
    )
}
