// The held notes of one group, and their calls. Each takes the state by value and hands it back with
// its answer.
ghost use Rattle.std.specs.Prelude.{◌≡◌, true, false, [], ◌∷◌, ◌++◌};
ghost use Rattle.packet.specs.Bytes.{words_of};
ghost use Rattle.command.specs.Messages.{messages_of};
ghost use Rattle.held_notes.specs.Calls.{silence, silenced, messages, handed, delivered, told, restarted};
ghost use Rattle.held_notes.specs.Answers.{notes_of, is_loss, Follows, Plays, refused_of, answer_of, start_of};

use super::listing::Notes;
use super::{listing, walk};
use config::refusal::Refusal;
use receiver::receiver::{Delivery, StreamEvent};
use window::window::{Class, SeqRange};

// Lies in memory as in C, and so do notes: crate `c_held_notes` hands them out.
#[repr(C)]
#[derive(Clone, Copy)]
pub struct HeldNotes {
    // 0 to 15.
    pub group: u8,
    // Note k, its channel times 128 plus its note byte, is bit k % 64 of word k / 64.
    pub held: [u64; 32],
}

#[derive(Clone, Copy)]
pub struct Given {
    pub state: HeldNotes,
    // On a reported loss or a restart, the notes that were held.
    pub notes: Notes,
    pub answer: Result<(), Refusal>,
}

fn no_notes() -> Notes
    ensures { result ≡ notes_of [] }
{
    Notes {
        count: 0,
        items: [0u16; 2048],
    }
}

// 12.
fn refused(state: HeldNotes) -> Given
    ensures { result ≡ refused_of state }
{
    let notes = no_notes();
    Given {
        state,
        notes,
        answer: Err(Refusal::SizeNotAllowed),
    }
}

// Nothing happens.
fn unchanged(state: HeldNotes) -> Given
    ensures { Follows state false [] result }
{
    let notes = no_notes();
    Given {
        state,
        notes,
        answer: Ok(()),
    }
}

// All are given, and none is held.
fn silence_all(state: HeldNotes) -> Given
    ensures { Follows state true (silence ∷ []) result }
{
    let held = state.held;
    let notes = listing::listed(held);
    Given {
        state: HeldNotes {
            held: [0u64; 32],
            ..state
        },
        notes,
        answer: Ok(()),
    }
}

// A loss, if one is reported.
fn after_loss(state: HeldNotes, lost: Option<SeqRange>) -> Given
    ensures { Follows state (is_loss lost) (silenced lost) result }
{
    match lost {
        None => unchanged(state),
        Some(_) => silence_all(state),
    }
}

// Then the messages of a command.
fn played(given: Given, new: bool, body: &[u8]) -> Given
    ensures { Plays given (messages new (messages_of (words_of body.now)).whole) result }
{
    let state = given.state;
    let held = state.held;
    let group = state.group;
    let notes = given.notes;
    let after = walk::play_all(group as u32, new, held, body);
    Given {
        state: HeldNotes { group, held: after },
        notes,
        answer: Ok(()),
    }
}

// When it is answered New or Late.
fn handed_on(given: Given, class: Class, body: &[u8]) -> Given
    ensures { Plays given (handed class (messages_of (words_of body.now)).whole) result }
{
    match class {
        Class::New(_) => played(given, true, body),
        Class::Late => played(given, false, body),
        Class::Duplicate => given,
    }
}

// A command that was not refused.
fn heard(state: HeldNotes, d: Delivery, body: &[u8]) -> Given
    ensures { Follows state (is_loss d.lost) (silenced d.lost ++ handed d.class (messages_of (words_of body.now)).whole) result }
{
    let lost = d.lost;
    let class = d.class;
    let given = after_loss(state, lost);
    handed_on(given, class, body)
}

// A start: no note is held. 12 when the group is above 15.
pub fn start(group: u8) -> Given
    ensures { result ≡ start_of group }
{
    let state = HeldNotes {
        group,
        held: [0u64; 32],
    };
    if group > 15 {
        return refused(state);
    }
    let notes = no_notes();
    Given {
        state,
        notes,
        answer: Ok(()),
    }
}

// What the receiver answered to a data command with these words. 12 when the group is above 15.
pub fn delivered(state: HeldNotes, hearing: Result<Delivery, Refusal>, body: &[u8]) -> Given
    ensures { result ≡ answer_of state (delivered hearing (words_of body.now)) }
{
    if state.group > 15 {
        return refused(state);
    }
    match hearing {
        Ok(d) => heard(state, d, body),
        Err(_) => unchanged(state),
    }
}

// What it answered to a poll, a Retransmit Error or a NAK. 12 when the group is above 15.
pub fn told(state: HeldNotes, event: Result<Option<StreamEvent>, Refusal>) -> Given
    ensures { result ≡ answer_of state (told event) }
{
    if state.group > 15 {
        return refused(state);
    }
    match event {
        Ok(None) => unchanged(state),
        Ok(Some(StreamEvent::DataLoss(_))) => silence_all(state),
        Ok(Some(StreamEvent::ErrorLoss(_, _))) => silence_all(state),
        Ok(Some(StreamEvent::RetransmitError(_))) => unchanged(state),
        Err(_) => unchanged(state),
    }
}

// The stream was started again. 12 when the group is above 15.
pub fn restarted(state: HeldNotes) -> Given
    ensures { result ≡ answer_of state restarted }
{
    if state.group > 15 {
        return refused(state);
    }
    silence_all(state)
}
