// Answers as numbers: each has 0, or the number of a refusal, in `refusal`; then every other field
// is 0. The kinds are numbers and a flag stands beside its values, since C reads them.
ghost use Rattle.std.specs.Prelude.{◌≡◌};
ghost use Rattle.c_answers.specs.Answers.{span_numbers, class_number, skipped_in, class_of, delivery_of, delivery_refused, written_refused, written_of, acceptance_of, ignored_number, outcome_refused, outcome_of, event_refused, event_of, request_refused, request_of, deadline_refused, deadline_of, wants_refused, wants_of};

use config::refusal::Refusal;
use history::queue::Ignored;
use receiver::receiver::{Delivery, Request, StreamEvent};
use sender::sender::RequestOutcome;
use window::window::{Class, SeqRange, Taken};
use writing::writing::Written;

// What became of a Retransmit Request: 0 queued, 1 one with its number waits, 2 every place is
// taken, 3 the error to write, 4 not supported.
#[repr(C)]
#[derive(Clone, Copy)]
pub struct COutcome {
    pub refusal: u8,
    pub kind: u8,
    pub reason: u8,
    pub seq: u16,
}

// A data command: 0 new, 1 late, 2 a duplicate; the numbers skipped before it, and the numbers
// lost. A count of 0 is none.
#[repr(C)]
#[derive(Clone, Copy)]
pub struct CDelivery {
    pub refusal: u8,
    pub class: u8,
    pub skipped: u16,
    pub gap_first: u16,
    pub gap_count: u16,
    pub lost_first: u16,
    pub lost_count: u16,
}

// An event: 0 nothing, 1 numbers lost, 2 numbers lost by an error, 3 an error.
#[repr(C)]
#[derive(Clone, Copy)]
pub struct CEvent {
    pub refusal: u8,
    pub kind: u8,
    pub reason: u8,
    pub seq: u16,
    pub first: u16,
    pub count: u16,
}

// A write of a request: 0 nothing was due, 1 written, 2 it does not fit.
#[repr(C)]
#[derive(Clone, Copy)]
pub struct CRequest {
    pub refusal: u8,
    pub kind: u8,
}

// A time, where `kind` is 1.
#[repr(C)]
#[derive(Clone, Copy)]
pub struct CDeadline {
    pub time: u64,
    pub refusal: u8,
    pub kind: u8,
}

#[repr(C)]
#[derive(Clone, Copy)]
pub struct CWants {
    pub refusal: u8,
    pub wants: u8,
}

// How many commands were written, and whether there are more.
#[repr(C)]
#[derive(Clone, Copy)]
pub struct CWritten {
    pub commands: u64,
    pub refusal: u8,
    pub more: u8,
}

#[derive(Clone, Copy)]
pub struct Numbers {
    pub first: u16,
    pub count: u16,
}

fn of_ignored(a: Ignored) -> u8
    ensures { result ≡ ignored_number a }
{
    match a {
        Ignored::Pending => 1,
        Ignored::Full => 2,
    }
}

pub fn refused_outcome(n: u8) -> COutcome
    ensures { result ≡ outcome_refused n }
{
    COutcome {
        refusal: n,
        kind: 0,
        reason: 0,
        seq: 0,
    }
}

pub fn of_outcome(a: Result<RequestOutcome, Refusal>) -> COutcome
    ensures { result ≡ outcome_of a }
{
    match a {
        Ok(RequestOutcome::Queued) => refused_outcome(0),
        Ok(RequestOutcome::Ignored(i)) => COutcome {
            kind: of_ignored(i),
            ..refused_outcome(0)
        },
        Ok(RequestOutcome::Error(e)) => COutcome {
            refusal: 0,
            kind: 3,
            reason: e.reason,
            seq: e.seq,
        },
        Ok(RequestOutcome::NotSupported) => COutcome {
            kind: 4,
            ..refused_outcome(0)
        },
        Err(why) => refused_outcome(why.number()),
    }
}

pub fn of_span(a: Option<SeqRange>) -> Numbers
    ensures { result ≡ span_numbers a }
{
    match a {
        None => Numbers { first: 0, count: 0 },
        Some(range) => Numbers {
            first: range.first,
            count: range.count,
        },
    }
}

pub fn refused_delivery(n: u8) -> CDelivery
    ensures { result ≡ delivery_refused n }
{
    CDelivery {
        refusal: n,
        class: 0,
        skipped: 0,
        gap_first: 0,
        gap_count: 0,
        lost_first: 0,
        lost_count: 0,
    }
}

fn class_number(c: Class) -> u8
    ensures { result ≡ class_number c }
{
    match c {
        Class::New(_) => 0,
        Class::Late => 1,
        Class::Duplicate => 2,
    }
}

fn skipped(c: Class) -> u16
    ensures { result ≡ skipped_in c }
{
    match c {
        Class::New(n) => n,
        Class::Late | Class::Duplicate => 0,
    }
}

pub fn of_class(class: Class, gap: Option<SeqRange>, lost: Option<SeqRange>) -> CDelivery
    ensures { result ≡ class_of class gap lost }
{
    let g = of_span(gap);
    let l = of_span(lost);
    CDelivery {
        refusal: 0,
        class: class_number(class),
        skipped: skipped(class),
        gap_first: g.first,
        gap_count: g.count,
        lost_first: l.first,
        lost_count: l.count,
    }
}

pub fn of_hearing(a: Result<Delivery, Refusal>) -> CDelivery
    ensures { result ≡ delivery_of a }
{
    match a {
        Ok(d) => of_class(d.class, d.gap, d.lost),
        Err(why) => refused_delivery(why.number()),
    }
}

pub fn refused_event(n: u8) -> CEvent
    ensures { result ≡ event_refused n }
{
    CEvent {
        refusal: n,
        kind: 0,
        reason: 0,
        seq: 0,
        first: 0,
        count: 0,
    }
}

pub fn of_event(a: Result<Option<StreamEvent>, Refusal>) -> CEvent
    ensures { result ≡ event_of a }
{
    match a {
        Ok(None) => refused_event(0),
        Ok(Some(StreamEvent::DataLoss(range))) => CEvent {
            kind: 1,
            first: range.first,
            count: range.count,
            ..refused_event(0)
        },
        Ok(Some(StreamEvent::ErrorLoss(range, e))) => CEvent {
            refusal: 0,
            kind: 2,
            reason: e.reason,
            seq: e.seq,
            first: range.first,
            count: range.count,
        },
        Ok(Some(StreamEvent::RetransmitError(e))) => CEvent {
            kind: 3,
            reason: e.reason,
            seq: e.seq,
            ..refused_event(0)
        },
        Err(why) => refused_event(why.number()),
    }
}

pub fn refused_request(n: u8) -> CRequest
    ensures { result ≡ request_refused n }
{
    CRequest {
        refusal: n,
        kind: 0,
    }
}

pub fn of_request(a: Result<Request, Refusal>) -> CRequest
    ensures { result ≡ request_of a }
{
    match a {
        Ok(Request::Nothing) => refused_request(0),
        Ok(Request::Written) => CRequest {
            refusal: 0,
            kind: 1,
        },
        Ok(Request::More) => CRequest {
            refusal: 0,
            kind: 2,
        },
        Err(why) => refused_request(why.number()),
    }
}

pub fn refused_deadline(n: u8) -> CDeadline
    ensures { result ≡ deadline_refused n }
{
    CDeadline {
        time: 0,
        refusal: n,
        kind: 0,
    }
}

pub fn of_deadline(a: Result<Option<u64>, Refusal>) -> CDeadline
    ensures { result ≡ deadline_of a }
{
    match a {
        Ok(None) => refused_deadline(0),
        Ok(Some(t)) => CDeadline {
            time: t,
            refusal: 0,
            kind: 1,
        },
        Err(why) => refused_deadline(why.number()),
    }
}

pub fn refused_wants(n: u8) -> CWants
    ensures { result ≡ wants_refused n }
{
    CWants {
        refusal: n,
        wants: 0,
    }
}

pub fn of_wants(a: Result<bool, Refusal>) -> CWants
    ensures { result ≡ wants_of a }
{
    match a {
        Ok(b) => CWants {
            refusal: 0,
            wants: b as u8,
        },
        Err(why) => refused_wants(why.number()),
    }
}

pub fn refused_written(n: u8) -> CWritten
    ensures { result ≡ written_refused n }
{
    CWritten {
        commands: 0,
        refusal: n,
        more: 0,
    }
}

pub fn of_writing(a: Result<Written, Refusal>) -> CWritten
    ensures { result ≡ written_of a }
{
    match a {
        Ok(w) => CWritten {
            commands: w.commands as u64,
            refusal: 0,
            more: w.more as u8,
        },
        Err(why) => refused_written(why.number()),
    }
}

pub fn of_acceptance(a: Result<Taken, Refusal>) -> CDelivery
    ensures { result ≡ acceptance_of a }
{
    match a {
        Ok(taken) => of_class(taken.class, None, taken.lost),
        Err(why) => refused_delivery(why.number()),
    }
}
