// The pretend link: its state, a step of 1 ms, and a run.
ghost use Rattle.std.specs.Prelude.{◌≡◌, ◌+◌, ◌≤◌, ◌<◌};
ghost use Rattle.link_rules.specs.Link.{step_of, run_of, most_steps, report_of, run_answer};
ghost use Rattle.link.specs.Turns.{ends_of, Fits};

use super::halves::{back, there};
use command::retransmit::RetransmitError;
use config::refusal::Refusal;
use config::settings::StreamConfig;
use link_rules::run::Report;
use load::load::Load;
use stream::stream::DataStream;

// The largest step budget.
const MOST_STEPS: u32 = 65536;

#[derive(Clone, Copy)]
pub struct State {
    pub console: DataStream,
    pub chamber: DataStream,
    // The error that stands first in the console's next payload.
    pub waiting: Option<RetransmitError>,
    // The last values drawn, at first the seeds.
    pub load: Load,
    pub line: Load,
    // Commands handed on and losses reported by the chamber.
    pub handed: u32,
    pub losses: u32,
}

// A step, at the time of the steps done before it.
fn step(
    s: State,
    cfg: StreamConfig,
    time: u64,
    figure: u32,
    ring: &mut [u32],
    other: &mut [u32],
) -> State
    requires { (time < most_steps) × Fits s time }
    ensures { (ends_of result (time + 1) ring.new other.new ≡ step_of cfg figure (ends_of s time ring.old other.old)) × Fits result (time + 1) }
{
    let load = s.load.draw();
    let line = s.line.draw();
    let gone = there(
        s.console,
        s.chamber,
        cfg,
        time,
        load,
        line,
        figure,
        s.waiting,
        ring,
        &other[..],
    );
    let heard = gone.chamber;
    let come = back(gone.console, heard.stream, cfg, time, &ring[..], other);
    let read = come.console;
    State {
        console: read.stream,
        chamber: come.chamber,
        waiting: read.waiting,
        load,
        line,
        handed: s.handed + heard.handed,
        losses: s.losses + heard.losses + come.losses,
    }
}

// As many steps as the budget has.
fn steps(
    first: State,
    cfg: StreamConfig,
    figure: u32,
    budget: u32,
    ring: &mut [u32],
    other: &mut [u32],
) -> Report
    requires { (budget ≤ most_steps) × Fits first 0 }
    ensures { (Ok result, ring.new, other.new) ≡ report_of (run_of cfg figure (ends_of first 0 ring.old other.old) budget) }
{
    let mut s = first;
    for done in 0..budget {
        s = step(s, cfg, done as u64, figure, ring, other);
    }
    Report {
        steps: budget,
        handed: s.handed,
        losses: s.losses,
    }
}

// A run from a fresh start of both ends, with their lent histories, which it zeroes: `ring` is the console's, `other`
// the chamber's. `seed` is the load's, `drop` the line's. 9, 7, 8 for settings; 12 for sizes that a start does not take,
// or a budget above 65,536. A refused run changes nothing.
pub fn run(
    cfg: StreamConfig,
    window: u32,
    words: usize,
    places: usize,
    seed: u32,
    drop: u32,
    figure: u32,
    budget: u32,
    ring: &mut [u32],
    other: &mut [u32],
) -> Result<Report, Refusal>
    ensures { (result, ring.new, other.new) ≡ run_answer cfg window words places seed «drop» figure budget ring.old other.old }
{
    match cfg.check() {
        Err(why) => Err(why),
        Ok(()) => {
            if MOST_STEPS < budget || ring.len() != other.len() {
                return Err(Refusal::SizeNotAllowed);
            }
            let first = DataStream::new(cfg, window, words, places, ring);
            let console = first.stream;
            let answer = first.answer;
            match answer {
                Err(why) => Err(why),
                Ok(()) => {
                    let second = DataStream::new(cfg, window, words, places, other);
                    let chamber = second.stream;
                    let fresh = State {
                        console,
                        chamber,
                        waiting: None,
                        load: Load { last: seed },
                        line: Load { last: drop },
                        handed: 0,
                        losses: 0,
                    };
                    Ok(steps(fresh, cfg, figure, budget, ring, other))
                }
            }
        }
    }
}
