// The two halves of a step: there, from the console to the chamber, and back.
ghost use Rattle.std.specs.Prelude.{◌≡◌, ◌≤◌};
ghost use Rattle.link_tally.specs.Tally.{Few};
ghost use Rattle.link.specs.Turns.{there_of, back_of};

use super::quiet::{chamber_rests, console_rests};
use super::turns::{carry, chamber_turn, console_turn, part};
use command::retransmit::RetransmitError;
use config::settings::StreamConfig;
use link_tally::arriving::{Tally, arrive};
use load::load::Load;
use stream::stream::DataStream;

// The console after its turn, and the chamber that has read.
#[derive(Clone, Copy)]
pub struct Gone {
    pub console: DataStream,
    pub chamber: Tally,
}

// The console that has read, and the chamber after its turn.
#[derive(Clone, Copy)]
pub struct Come {
    pub console: Tally,
    pub chamber: DataStream,
    // Losses that the chamber's poll reported.
    pub losses: u32,
}

// From the console to the chamber, with a payload.
fn spoken(
    console: DataStream,
    chamber: DataStream,
    cfg: StreamConfig,
    time: u64,
    load: Load,
    line: Load,
    figure: u32,
    waiting: Option<RetransmitError>,
    ring: &mut [u32],
    other: &[u32],
) -> Gone
    ensures { ((result, ring.new) ≡ there_of console chamber cfg time load.last line.last figure waiting ring.old other.now) × Few result.chamber }
{
    let mut buf = [0u8; 1400];
    let turn = console_turn(console, cfg, time, load, waiting, &mut buf, ring);
    let heard = carry(
        chamber,
        cfg,
        time,
        line,
        figure,
        other,
        part(&buf, turn.len),
    );
    Gone {
        console: turn.stream,
        chamber: heard,
    }
}

// From the console to the chamber. A console that rests sends nothing.
pub fn there(
    console: DataStream,
    chamber: DataStream,
    cfg: StreamConfig,
    time: u64,
    load: Load,
    line: Load,
    figure: u32,
    waiting: Option<RetransmitError>,
    ring: &mut [u32],
    other: &[u32],
) -> Gone
    ensures { ((result, ring.new) ≡ there_of console chamber cfg time load.last line.last figure waiting ring.old other.now) × Few result.chamber }
{
    if console_rests(console, time, load, waiting) {
        return Gone {
            console,
            chamber: Tally {
                stream: chamber,
                waiting: None,
                handed: 0,
                losses: 0,
            },
        };
    }
    spoken(
        console, chamber, cfg, time, load, line, figure, waiting, ring, other,
    )
}

// From the chamber to the console, with a poll and a payload.
fn replied(
    console: DataStream,
    chamber: DataStream,
    cfg: StreamConfig,
    time: u64,
    ring: &[u32],
    other: &mut [u32],
) -> Come
    ensures { ((result, other.new) ≡ back_of console chamber cfg time ring.now other.old) × (result.losses ≤ 1) }
{
    let mut buf = [0u8; 1400];
    let turn = chamber_turn(chamber, cfg, time, &mut buf, other);
    let read = arrive(console, cfg, time, ring, part(&buf, turn.len));
    Come {
        console: read,
        chamber: turn.stream,
        losses: turn.losses,
    }
}

// From the chamber to the console. A chamber that rests polls for nothing and sends nothing.
pub fn back(
    console: DataStream,
    chamber: DataStream,
    cfg: StreamConfig,
    time: u64,
    ring: &[u32],
    other: &mut [u32],
) -> Come
    ensures { ((result, other.new) ≡ back_of console chamber cfg time ring.now other.old) × (result.losses ≤ 1) }
{
    if chamber_rests(chamber, time) {
        return Come {
            console: Tally {
                stream: console,
                waiting: None,
                handed: 0,
                losses: 0,
            },
            chamber,
            losses: 0,
        };
    }
    replied(console, chamber, cfg, time, ring, other)
}
