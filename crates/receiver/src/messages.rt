// What of a heard command is handed on: the whole messages at its front, when it is answered New or
// Late.
//
//   body:  | message | message | .. | a part of one, or nothing
//          |<----- handed on ------>|
ghost use Rattle.std.specs.Prelude.{◌≡◌};
ghost use Rattle.receiver.specs.Messages.{hands_on, handed_bytes, handed_cut};

use command::message::whole_words_in;
use window::window::Class;

// Whether a command of this class is handed on; a Duplicate is not.
pub fn delivers(class: Class) -> bool
    ensures { result ≡ hands_on class }
{
    matches!(class, Class::New(_) | Class::Late)
}

// The part of a data command's bytes that is handed on: its whole messages, or nothing for a
// Duplicate.
pub fn handed_on(class: Class, body: &[u8]) -> &[u8]
    ensures { result.now ≡ handed_bytes class body.now }
{
    let end = if delivers(class) {
        4 * whole_words_in(body)
    } else {
        0
    };
    &body[..end]
}

// The cut mark of what is handed on: the bytes end inside a message.
pub fn is_cut(class: Class, body: &[u8]) -> bool
    ensures { result ≡ handed_cut class body.now }
{
    delivers(class) && whole_words_in(body) < body.len() / 4
}
