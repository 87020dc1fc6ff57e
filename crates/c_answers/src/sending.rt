// Queueing and writing in one call, as numbers.
ghost use Rattle.std.specs.Prelude.{◌≡◌};
ghost use Rattle.c_answers.specs.Sending.{sent_written_refused, sent_written_of};

use super::answers;
use stream::sending::SendAndWrite;

// Whether the words were queued; then what the write answers: `refusal` is its number, else that of
// the queueing, and nothing was written.
#[repr(C)]
#[derive(Clone, Copy)]
pub struct CSentWritten {
    pub commands: u64,
    pub refusal: u8,
    pub more: u8,
    pub queued: u8,
}

pub fn refused_sent_written(n: u8) -> CSentWritten
    ensures { result ≡ sent_written_refused n }
{
    CSentWritten {
        commands: 0,
        refusal: n,
        more: 0,
        queued: 0,
    }
}

pub fn of_send_and_write(a: SendAndWrite) -> CSentWritten
    ensures { result ≡ sent_written_of a }
{
    match a {
        SendAndWrite::NotQueued(why) => refused_sent_written(why.number()),
        SendAndWrite::Queued(w) => {
            let written = answers::of_writing(w);
            CSentWritten {
                commands: written.commands,
                refusal: written.refusal,
                more: written.more,
                queued: 1,
            }
        }
    }
}
