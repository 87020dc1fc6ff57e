// What each end does in a step: the console queues the load's words and writes, the line carries or drops, the chamber reads, polls and writes.
ghost use Rattle.std.specs.Prelude.{◌≡◌, ◌≤◌, length};
ghost use Rattle.link_rules.specs.Arriving.{arrived_of};
ghost use Rattle.link_tally.specs.Tally.{Few, tallied, unread};
ghost use Rattle.link_rules.specs.Link.{limit, blank, carried};
ghost use Rattle.link.specs.Turns.{begun, queued_at, wrote_into, console_of, chamber_of, poll_loss, part_of, turn_of};

use command::retransmit::RetransmitError;
use config::settings::StreamConfig;
use link_tally::arriving::{Tally, arrive, event_loss};
use load::load::{Load, WORD};
use packet::writer::{MAX_PAYLOAD, PayloadWriter};
use stream::stream::DataStream;

// An end after its turn: `len` bytes of its buffer are its payload.
#[derive(Clone, Copy)]
pub struct Turn {
    pub stream: DataStream,
    pub len: usize,
    // Losses that its poll reported.
    pub losses: u32,
}

// The payload: empty, or with the error that waits.
fn begin(waiting: Option<RetransmitError>, buf: &mut [u8]) -> PayloadWriter
    requires { buf.old ≡ blank }
    ensures { (result, buf.new) ≡ begun waiting }
{
    let empty = PayloadWriter {
        len: 0,
        max: MAX_PAYLOAD,
    };
    match waiting {
        None => empty,
        Some(e) => {
            let wrote = e.write(empty, buf);
            wrote.payload
        }
    }
}

// Queues the words that the load's last value asks to send.
fn queue(s: DataStream, cfg: StreamConfig, ring: &mut [u32], load: Load) -> DataStream
    ensures { (result, ring.new) ≡ queued_at s cfg ring.old load.last }
{
    let words = [WORD; 8];
    let asked = load.words();
    let sent = s.send_ump(cfg, ring, &words[..asked.count]);
    sent.stream
}

// Writes into a payload.
fn write(
    s: DataStream,
    cfg: StreamConfig,
    time: u64,
    p: PayloadWriter,
    buf: &mut [u8],
    ring: &mut [u32],
    losses: u32,
) -> Turn
    ensures { (turn_of result buf.new ring.new ≡ wrote_into s cfg time ring.old (p, buf.old)) × (result.losses ≡ losses) }
{
    let wrote = s.write_data(cfg, time, p, buf, ring);
    Turn {
        stream: wrote.stream,
        len: wrote.payload.len,
        losses,
    }
}

// The console's turn.
pub fn console_turn(
    s: DataStream,
    cfg: StreamConfig,
    time: u64,
    load: Load,
    waiting: Option<RetransmitError>,
    buf: &mut [u8],
    ring: &mut [u32],
) -> Turn
    requires { buf.old ≡ blank }
    ensures { turn_of result buf.new ring.new ≡ console_of s cfg time ring.old load.last waiting }
{
    let queued = queue(s, cfg, ring, load);
    let p = begin(waiting, buf);
    write(queued, cfg, time, p, buf, ring, 0)
}

// The chamber's, after it has read.
pub fn chamber_turn(
    s: DataStream,
    cfg: StreamConfig,
    time: u64,
    buf: &mut [u8],
    ring: &mut [u32],
) -> Turn
    requires { buf.old ≡ blank }
    ensures { (turn_of result buf.new ring.new ≡ chamber_of s cfg time ring.old) × (result.losses ≡ poll_loss s cfg time) × (result.losses ≤ 1) }
{
    let told = s.poll(cfg, time);
    let empty = PayloadWriter {
        len: 0,
        max: MAX_PAYLOAD,
    };
    write(
        told.stream,
        cfg,
        time,
        empty,
        buf,
        ring,
        event_loss(told.answer),
    )
}

// The first `len` bytes of a buffer.
pub fn part(buf: &[u8], len: usize) -> &[u8]
    ensures { result.now ≡ part_of len buf.now }
{
    if buf.len() < len {
        return &buf[..];
    }
    &buf[..len]
}

// The line carries a payload to an end, or drops it.
pub fn carry(
    s: DataStream,
    cfg: StreamConfig,
    time: u64,
    line: Load,
    figure: u32,
    ring: &[u32],
    payload: &[u8],
) -> Tally
    requires { length payload.now ≤ limit }
    ensures { (result ≡ tallied (unread s) (arrived_of s cfg time ring.now (carried figure line.last payload.now))) × Few result }
{
    if line.last % 0x100 < figure {
        return Tally {
            stream: s,
            waiting: None,
            handed: 0,
            losses: 0,
        };
    }
    arrive(s, cfg, time, ring, payload)
}
