// An end reads a payload: data is heard, a request is answered, an error is told, other commands pass.
ghost use Rattle.std.specs.Prelude.{◌≡◌, ◌≤◌, cond, [], length};
ghost use Rattle.receiver.specs.Messages.{hands_on};
ghost use Rattle.packet.specs.Read.{items_of};
ghost use Rattle.command.specs.declared.parse.Command.TheVariants.{UmpData as UmpDataOf, RetransmitRequest as RequestOf, RetransmitError as ErrorOf};
ghost use Rattle.link_rules.specs.Arriving.{requested, span_loss, event_loss, error_by, arrived_by, arrived_of};
ghost use Rattle.link_tally.specs.Tally.{Few, rest_at, tallied, unread};

use command::data::UmpData;
use command::parse::{Command, parse};
use command::retransmit::{RetransmitError, RetransmitRequest};
use config::refusal::Refusal;
use config::settings::StreamConfig;
use packet::cursor::{Cursor, Header, PacketItem, body, command_packets};
use receiver::messages::delivers;
use receiver::receiver::StreamEvent;
use sender::sender::RequestOutcome;
use stream::stream::DataStream;
use window::window::{Class, SeqRange};

// An end, and what is counted of the answers that it has given.
#[derive(Clone, Copy)]
pub struct Tally {
    pub stream: DataStream,
    pub waiting: Option<RetransmitError>,
    // Commands handed on, at most one for each command read.
    pub handed: u32,
    // Losses reported, at most one for each command read.
    pub losses: u32,
}

// Whether a span is a loss, as a count.
fn span_loss(span: Option<SeqRange>) -> u32
    ensures { (result ≡ span_loss span) × (result ≤ 1) }
{
    span.is_some() as u32
}

// Whether an event is a loss, as a count.
pub fn event_loss(event: Result<Option<StreamEvent>, Refusal>) -> u32
    ensures { (result ≡ event_loss event) × (result ≤ 1) }
{
    matches!(
        event,
        Ok(Some(StreamEvent::DataLoss(_) | StreamEvent::ErrorLoss(_, _)))
    ) as u32
}

// The error that waits after a request was answered.
fn error_after(
    waiting: Option<RetransmitError>,
    outcome: Result<RequestOutcome, Refusal>,
) -> Option<RetransmitError>
    ensures { result ≡ error_by waiting (requested outcome) }
{
    if let Ok(RequestOutcome::Error(e)) = outcome {
        return Some(e);
    }
    waiting
}

// Commands handed on by one of this class.
fn hands_on(class: Class) -> u32
    ensures { (result ≡ cond (hands_on class) 1 0) × (result ≤ 1) }
{
    delivers(class) as u32
}

// A data command.
fn hear(a: Tally, cfg: StreamConfig, time: u64, data: UmpData) -> Tally
    requires { Few a }
    ensures { result ≡ tallied a (arrived_by a.stream cfg time [] (Ok (UmpDataOf «data»))) }
{
    let heard = a.stream.on_ump_data(cfg, time, data);
    match heard.answer {
        Err(_) => Tally {
            stream: heard.stream,
            ..a
        },
        Ok(d) => Tally {
            stream: heard.stream,
            handed: a.handed + hands_on(d.class),
            losses: a.losses + span_loss(d.lost),
            ..a
        },
    }
}

// A Retransmit Request.
fn request(a: Tally, cfg: StreamConfig, ring: &[u32], req: RetransmitRequest) -> Tally
    ensures { result ≡ tallied a (arrived_by a.stream cfg 0 ring.now (Ok (RequestOf req))) }
{
    let asked = a.stream.on_retransmit_request(cfg, ring, req);
    Tally {
        stream: asked.stream,
        waiting: error_after(a.waiting, asked.answer),
        ..a
    }
}

// A Retransmit Error.
fn error(a: Tally, cfg: StreamConfig, err: RetransmitError) -> Tally
    requires { Few a }
    ensures { result ≡ tallied a (arrived_by a.stream cfg 0 [] (Ok (ErrorOf err))) }
{
    let told = a.stream.on_retransmit_error(err);
    Tally {
        stream: told.stream,
        losses: a.losses + event_loss(told.answer),
        ..a
    }
}

// One command.
fn command(
    a: Tally,
    cfg: StreamConfig,
    time: u64,
    ring: &[u32],
    c: Result<Command, Refusal>,
) -> Tally
    requires { Few a }
    ensures { result ≡ tallied a (arrived_by a.stream cfg time ring.now c) }
{
    match c {
        Ok(Command::UmpData(d)) => hear(a, cfg, time, d),
        Ok(Command::RetransmitRequest(q)) => request(a, cfg, ring, q),
        Ok(Command::RetransmitError(e)) => error(a, cfg, e),
        Ok(Command::Raw(_)) => a,
        Err(_) => a,
    }
}

// The commands of a payload that has the signature, one after the other. A loop: each command says where
// the next one is.
fn walk(first: Tally, cfg: StreamConfig, time: u64, ring: &[u32], payload: &[u8]) -> Tally
    requires { (length payload.now ≤ 1400) × (first.handed ≡ 0) × (first.losses ≡ 0) }
    ensures { (result ≡ tallied first (arrived_of first.stream cfg time ring.now (rest_at payload.now 4))) × Few result }
{
    let mut a = first;
    let mut at = 4;
    // A `loop`: each command says where the next one stands, and three ways end it.
    loop {
        let c = Cursor { at };
        match c.next(payload) {
            PacketItem::End => {
                return a;
            }
            PacketItem::Truncated(_) => {
                return a;
            }
            PacketItem::Command {
                header,
                at: here,
                next,
            } => {
                a = command(
                    a,
                    cfg,
                    time,
                    ring,
                    parse(header, body(payload, here, header)),
                );
                at = next.at;
            }
        }
    }
}

// A payload; nothing is read without the signature.
pub fn arrive(s: DataStream, cfg: StreamConfig, time: u64, ring: &[u32], payload: &[u8]) -> Tally
    requires { length payload.now ≤ 1400 }
    ensures { (result ≡ tallied (unread s) (arrived_of s cfg time ring.now (items_of payload.now))) × Few result }
{
    let none = Tally {
        stream: s,
        waiting: None,
        handed: 0,
        losses: 0,
    };
    match command_packets(payload) {
        Err(_) => none,
        Ok(_) => walk(none, cfg, time, ring, payload),
    }
}
