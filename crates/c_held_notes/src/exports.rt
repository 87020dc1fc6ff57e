// The C functions, and what their numbers stand for.
ghost use Rattle.std.specs.Prelude.{◌≡◌};
ghost use Rattle.packet.specs.Bytes.{words_of};
ghost use Rattle.held_notes.specs.Calls.{delivered, told, restarted};
ghost use Rattle.held_notes.specs.Answers.{answer_of, start_of};
ghost use Rattle.c_held_notes.specs.Numbers.{class_of, span_of, hearing_of, event_of, given_of};

use config::refusal::Refusal;
use held_notes::held;
use held_notes::held::{Given, HeldNotes};
use held_notes::listing::Notes;
use receiver::receiver::{Delivery, StreamEvent};
use window::window::{Class, SeqRange};

// What a call leaves and gives: 0, or the number of its refusal.
#[repr(C)]
#[derive(Clone, Copy)]
pub struct CGiven {
    pub state: HeldNotes,
    pub notes: Notes,
    pub refusal: u8,
}

// 0 new, 1 late; any other is a duplicate.
fn class_of(class: u8) -> Class
    ensures { result ≡ class_of class }
{
    if class == 0 {
        return Class::New(0);
    }
    if class == 1 {
        return Class::Late;
    }
    Class::Duplicate
}

// A loss of so many numbers; 0 is none.
fn span_of(count: u16) -> Option<SeqRange>
    ensures { result ≡ span_of count }
{
    if count == 0 {
        return None;
    }
    Some(SeqRange { first: 0, count })
}

// A delivery that was not refused, by its class and its loss.
fn hearing_of(refusal: u8, class: u8, lost: u16) -> Result<Delivery, Refusal>
    ensures { result ≡ hearing_of refusal class lost }
{
    if refusal == 0 {
        let is = class_of(class);
        let span = span_of(lost);
        return Ok(Delivery {
            seq: 0,
            class: is,
            gap: None,
            lost: span,
        });
    }
    Err(Refusal::InvalidState)
}

// An event: 1 and 2 tell a loss.
fn event_of(kind: u8) -> Result<Option<StreamEvent>, Refusal>
    ensures { result ≡ event_of kind }
{
    if kind == 1 {
        return Ok(Some(StreamEvent::DataLoss(SeqRange { first: 0, count: 1 })));
    }
    if kind == 2 {
        return Ok(Some(StreamEvent::DataLoss(SeqRange { first: 0, count: 1 })));
    }
    Ok(None)
}

fn as_numbers(g: Given) -> CGiven
    ensures { result ≡ given_of g }
{
    let answer = g.answer;
    let state = g.state;
    let notes = g.notes;
    let refusal = config::answer::number(answer);
    CGiven {
        state,
        notes,
        refusal,
    }
}

// A start: no note is held.
#[unsafe(no_mangle)]
pub extern "C" fn sirmjold_held_start(group: u8) -> CGiven
    ensures { result ≡ given_of (start_of group) }
{
    let g = held::start(group);
    as_numbers(g)
}

// What the stream answered to a data command, whose words these bytes are.
#[unsafe(no_mangle)]
pub extern "C" fn sirmjold_held_delivered(
    state: HeldNotes,
    refusal: u8,
    class: u8,
    lost: u16,
    body: &[u8],
) -> CGiven
    ensures { result ≡ given_of (answer_of state (delivered (hearing_of refusal class lost) (words_of body.now))) }
{
    let hearing = hearing_of(refusal, class, lost);
    let g = held::delivered(state, hearing, body);
    as_numbers(g)
}

// What it answered to a poll, a Retransmit Error or a NAK.
#[unsafe(no_mangle)]
pub extern "C" fn sirmjold_held_told(state: HeldNotes, kind: u8) -> CGiven
    ensures { result ≡ given_of (answer_of state (told (event_of kind))) }
{
    let event = event_of(kind);
    let g = held::told(state, event);
    as_numbers(g)
}

// The stream was started again.
#[unsafe(no_mangle)]
pub extern "C" fn sirmjold_held_restarted(state: HeldNotes) -> CGiven
    ensures { result ≡ given_of (answer_of state restarted) }
{
    let g = held::restarted(state);
    as_numbers(g)
}
