// What a C function answers, as an entry of the table of answers: its numbers say which, in C and in the contracts.
ghost use Rattle.std.specs.Prelude.{◌≡◌};
ghost use Rattle.made_calls.specs.Numbers.{outcome_entry, deadline_entry, delivery_entry, event_entry, wants_entry};

use c_answers::answers::{CDeadline, CDelivery, CEvent, COutcome, CRequest, CWants, CWritten};
use script::answers;
use script::answers::{made, of, plain};
use text::forms::Answer;

// What a write has written, and the payload's length after it.
pub fn written(w: CWritten, len: u64) -> Answer {
    made(
        w.refusal,
        of(answers::WRITTEN, w.commands, w.more as u64, len),
    )
}

pub fn outcome(o: COutcome) -> Answer
    ensures { result ≡ outcome_entry o }
{
    made(
        o.refusal,
        of(
            answers::OUTCOME + o.kind as usize,
            o.reason as u64,
            o.seq as u64,
            0,
        ),
    )
}

pub fn taken(r: CRequest) -> Answer {
    made(r.refusal, plain(answers::TAKEN + r.kind as usize))
}

pub fn deadline(d: CDeadline) -> Answer
    ensures { result ≡ deadline_entry d }
{
    made(
        d.refusal,
        of(answers::DEADLINE + d.kind as usize, d.time, 0, 0),
    )
}

pub fn wants(w: CWants) -> Answer
    ensures { result ≡ wants_entry w }
{
    answers::figure(w.refusal, w.wants as u64)
}

// The class, the numbers skipped, and the loss that it brings.
pub fn delivery(d: CDelivery) -> Answer
    ensures { result ≡ delivery_entry d }
{
    made(
        d.refusal,
        of(
            answers::NEW + d.class as usize,
            d.skipped as u64,
            d.lost_count as u64,
            d.lost_first as u64,
        ),
    )
}

// What a delivery's answer leaves out: the number, and the first of those skipped.
pub fn delivery_last(d: CDelivery, seq: u64) -> Answer {
    if d.refusal != 0 {
        return plain(answers::NONE);
    }
    if d.gap_count == 0 {
        return of(answers::NO_GAP, seq, 0, 0);
    }
    of(answers::GAP, seq, d.gap_first as u64, d.gap_count as u64)
}

pub fn event(e: CEvent) -> Answer
    ensures { result ≡ event_entry e }
{
    made(
        e.refusal,
        of(
            answers::NONE + e.kind as usize,
            e.first as u64,
            e.count as u64,
            0,
        ),
    )
}

// What an event's answer leaves out: the error that told it. A refused call has the kind of nothing.
pub fn event_last(e: CEvent) -> Answer {
    of(
        answers::EVENT_LAST + e.kind as usize,
        e.reason as u64,
        e.seq as u64,
        0,
    )
}
