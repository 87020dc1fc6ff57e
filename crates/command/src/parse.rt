// What a received command is.
ghost use Rattle.std.specs.Prelude.{◌≡◌};
ghost use Rattle.packet.specs.Bytes.{words_of};
ghost use Rattle.command.specs.Parse.{parsed_of, request_in, error_in};

use super::data::UmpData;
use super::retransmit::{RetransmitError, RetransmitRequest};
use config::refusal::Refusal;
use packet::cursor::{Header, word};

#[derive(Clone, Copy)]
pub enum Command {
    // Its messages stand in the command's bytes.
    UmpData(UmpData),
    RetransmitRequest(RetransmitRequest),
    RetransmitError(RetransmitError),
    // Any other code.
    Raw(Header),
}

// The command with this header and these bytes of words; 10 for a request or an error without a
// word. Words past the first are passed over.
pub fn parse(header: Header, body: &[u8]) -> Result<Command, Refusal>
    ensures { result ≡ parsed_of header (words_of body.now) }
{
    match header.code {
        0xFF => Ok(Command::UmpData(UmpData { seq: header.csd() })),
        0x80 => request(header, body),
        0x81 => error(header, body),
        _ => Ok(Command::Raw(header)),
    }
}

fn request(header: Header, body: &[u8]) -> Result<Command, Refusal>
    ensures { result ≡ request_in header (words_of body.now) }
{
    match word(body, 0) {
        None => Err(Refusal::Malformed),
        Some(w) => Ok(Command::RetransmitRequest(RetransmitRequest {
            seq: header.csd(),
            count: (w / 0x1_0000) as u16,
        })),
    }
}

fn error(header: Header, body: &[u8]) -> Result<Command, Refusal>
    ensures { result ≡ error_in header (words_of body.now) }
{
    match word(body, 0) {
        None => Err(Refusal::Malformed),
        Some(w) => Ok(Command::RetransmitError(RetransmitError {
            reason: header.csd1,
            seq: (w / 0x1_0000) as u16,
        })),
    }
}
