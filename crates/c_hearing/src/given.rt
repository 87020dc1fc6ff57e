// A command is given to its end. The words of a stream that was tested stay those of a stream.
ghost use Rattle.std.specs.Prelude.{◌≡◌, true};
ghost use Rattle.config.specs.Settings.{check_of};
ghost use Rattle.c_state.specs.Stream.{fits};
ghost use Rattle.c_hearing.specs.Given.{data_given, request_given, error_given, given_of};

use super::figures;
use super::figures::Figures;
use c_answers::answers;
use c_state::{receiving, state};
use command::parse::Command;
use command::retransmit::{RetransmitError, RetransmitRequest};
use config::refusal::Refusal;
use config::sequence::SeqNum;
use config::settings::StreamConfig;

// A data command.
fn data(cfg: StreamConfig, time: u64, seq: SeqNum, s: &mut [u64]) -> Figures
    requires { (fits s.old ≡ true) × (check_of cfg ≡ Ok tt) }
    ensures { ((result, s.new) ≡ data_given s.old cfg time seq) × (fits s.new ≡ true) }
{
    figures::of_delivery(answers::of_hearing(receiving::hear(cfg, time, seq, s)))
}

// A Retransmit Request.
fn request(cfg: StreamConfig, ring: &[u32], r: RetransmitRequest, s: &mut [u64]) -> Figures
    requires { fits s.old ≡ true }
    ensures { ((result, s.new) ≡ request_given s.old cfg ring.now r) × (fits s.new ≡ true) }
{
    let done = state::sender_in(&s[..]).on_retransmit_request(cfg, ring, r);
    state::store_sender(done.sender, s);
    figures::of_outcome(answers::of_outcome(done.answer))
}

// A Retransmit Error.
fn error(e: RetransmitError, s: &mut [u64]) -> Figures
    requires { fits s.old ≡ true }
    ensures { ((result, s.new) ≡ error_given s.old e) × (fits s.new ≡ true) }
{
    let done = state::receiver_in(&s[..]).on_retransmit_error(e);
    state::renew_receiver(done.receiver, s);
    figures::of_event(answers::of_event(done.answer))
}

// Any command.
pub fn give(
    cfg: StreamConfig,
    time: u64,
    ring: &[u32],
    command: Result<Command, Refusal>,
    s: &mut [u64],
) -> Figures
    requires { (fits s.old ≡ true) × (check_of cfg ≡ Ok tt) }
    ensures { ((result, s.new) ≡ given_of s.old cfg time ring.now command) × (fits s.new ≡ true) }
{
    match command {
        Ok(Command::UmpData(d)) => data(cfg, time, d.seq, s),
        Ok(Command::RetransmitRequest(r)) => request(cfg, ring, r, s),
        Ok(Command::RetransmitError(e)) => error(e, s),
        Ok(Command::Raw(_)) => figures::of_number(0),
        Err(why) => figures::of_number(why.number()),
    }
}
