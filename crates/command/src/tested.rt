// Writing into a payload that has passed the state test.
ghost use Rattle.std.specs.Prelude.{◌≡◌, true, length};
ghost use Rattle.packet.specs.Write.{valid_of, written_of};
ghost use Rattle.command.specs.Write.{request_packet, error_written};

use super::refused::refused;
use super::retransmit::{RetransmitError, RetransmitRequest};
use config::refusal::Refusal;
use packet::writer::{PayloadWriter, Wrote};

pub fn write_request(req: RetransmitRequest, p: PayloadWriter, buf: &mut [u8]) -> Wrote
    requires { valid_of p (length buf.old) ≡ true }
    ensures { (result, buf.new) ≡ written_of p buf.old (request_packet req) }
{
    let [high, low] = req.seq.to_be_bytes();
    let words = [u32::from(req.count) * 0x1_0000];
    packet::tested::command(p, buf, 0x80, high, low, &words)
}

pub fn write_error(err: RetransmitError, p: PayloadWriter, buf: &mut [u8]) -> Wrote
    requires { valid_of p (length buf.old) ≡ true }
    ensures { (result, buf.new) ≡ error_written err p buf.old }
{
    if err.is_defined() {
        let words = [u32::from(err.seq) * 0x1_0000];
        return packet::tested::command(p, buf, 0x81, err.reason, 0, &words);
    }
    refused(p, Refusal::ReasonNotAllowed)
}
