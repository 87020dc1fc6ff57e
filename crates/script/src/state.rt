// The state of a stream's two ends as text.
use command::retransmit::RetransmitRequest;
use history::history::SendHistory;
use history::queue::RetransmitQueue;
use idle::idle::Idle;
use receiver::receiver::{Receiver, RequestTimer};
use sender::sender::Sender;
use std::io;
use std::io::Write;
use text::out;
use text::out::Output;
use window::window::ReceiveWindow;

fn window(out: &mut impl Write, w: ReceiveWindow) -> io::Result<()> {
    let b = w.bits;
    write!(
        out,
        "highest {} bits {:016X}{:016X}",
        w.highest, b.high, b.low
    )
}

fn timer(out: &mut impl Write, t: Option<RequestTimer>) -> io::Result<()> {
    match t {
        None => write!(out, " timer -"),
        Some(r) => write!(out, " timer {},{}", r.due, r.sent),
    }
}

fn asked(out: &mut impl Write, a: Option<RetransmitRequest>) -> io::Result<()> {
    match a {
        None => write!(out, " asked -"),
        Some(q) => write!(out, " asked {},{}", q.seq, q.count),
    }
}

pub fn receiver(out: &mut impl Write, r: Receiver) -> io::Result<()> {
    let due = u8::from(r.request_due);
    let refused = u8::from(r.refused);
    window(out, r.window)?;
    timer(out, r.timer)?;
    write!(out, " due {due} refused {refused}")?;
    asked(out, r.asked)
}

fn places(out: &mut impl Write, h: SendHistory) -> io::Result<()> {
    write!(
        out,
        " head {} used {} count {} oldest {}",
        h.head, h.used, h.count, h.oldest
    )
}

fn idle(out: &mut impl Write, i: Option<Idle>) -> io::Result<()> {
    match i {
        None => write!(out, " idle -"),
        Some(w) => write!(out, " idle {},{},{}", w.due, w.step, w.interval),
    }
}

// The requests that wait, oldest first.
fn ring(out: &mut impl Write, q: RetransmitQueue) -> io::Result<()> {
    if q.len == 0 {
        return write!(out, " ring -");
    }
    write!(out, " ring ")?;
    let items = q.items;
    let mut at = q.head;
    for i in 0..q.len {
        let request = items[at % 16];
        if 0 < i {
            write!(out, ";")?;
        }
        write!(out, "{},{}", request.seq, request.count)?;
        at = out::after(at, q.size);
    }
    Ok(())
}

pub fn sender(out: &mut Output<'_, impl Print>, s: Sender, memory: &[u32]) -> io::Result<()> {
    let h = s.history;
    places(out, h)?;
    write!(
        out,
        " last {} unsent {} unsentwords {}",
        h.last, s.unsent, s.unsent_words
    )?;
    idle(out, s.idle)?;
    ring(out, s.queue)?;
    write!(out, " history ")?;
    out.words(memory, h.head, h.used)
}
