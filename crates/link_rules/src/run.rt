// What crate `link` hands out of a run.
use command::retransmit::RetransmitError;
use config::refusal::Refusal;

// What a run reports: steps done, commands handed on and losses reported.
#[derive(Clone, Copy)]
pub struct Report {
    pub steps: u32,
    pub handed: u32,
    pub losses: u32,
}
