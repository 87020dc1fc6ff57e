// A run on the pretend link as a C function, which include/sirmjold.h declares. The settings are eight lent words, as
// for every other function, and both histories are lent.
#![tactic(auto)]

ghost use Rattle.std.specs.Prelude.{◌≡◌};
ghost use Rattle.c_link.specs.Export.{report_of, refused_by, run_export};

use c_words::settings;
use config::refusal::Refusal;
use link::link::run;
use link_rules::run::Report;

// What a run reports; where `refusal` is not 0, all else is.
#[repr(C)]
#[derive(Clone, Copy)]
pub struct CReport {
    pub steps: u32,
    pub handed: u32,
    pub losses: u32,
    pub refusal: u8,
}

fn refused(number: u8) -> CReport
    ensures { result ≡ refused_by number }
{
    CReport {
        steps: 0,
        handed: 0,
        losses: 0,
        refusal: number,
    }
}

fn report(ran: Result<Report, Refusal>) -> CReport
    ensures { result ≡ report_of ran }
{
    match ran {
        Ok(r) => CReport {
            steps: r.steps,
            handed: r.handed,
            losses: r.losses,
            refusal: 0,
        },
        Err(why) => refused(why.number()),
    }
}

// A run from a fresh start of both ends: a window of `window` numbers, a request queue of `places` places, and the whole
// of `ring` and of `other` as the histories of console and chamber, which are zeroed. The settings are refused by their
// own numbers; 12 for sizes, which are as at a start, for two histories that are not of one length, and for a budget above 65,536.
#[unsafe(no_mangle)]
pub extern "C" fn sirmjold_link_run(
    cfg: &[u32],
    window: u32,
    places: usize,
    seed: u32,
    drop: u32,
    figure: u16,
    budget: u32,
    ring: &mut [u32],
    other: &mut [u32],
) -> CReport
    ensures { (result, ring.new, other.new) ≡ run_export cfg.now window places seed «drop» figure budget ring.old other.old }
{
    let number = settings::number(cfg);
    if number == 0 {
        let words = ring.len();
        return report(run(
            settings::load(cfg),
            window,
            words,
            places,
            seed,
            drop,
            figure as u32,
            budget,
            ring,
            other,
        ));
    }
    refused(number)
}
