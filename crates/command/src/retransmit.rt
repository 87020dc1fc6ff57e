// Retransmit Request and Retransmit Error.
ghost use Rattle.std.specs.Prelude.{◌≡◌};
ghost use Rattle.command.specs.Write.{is_defined, request_packet, error_written};
ghost use Rattle.packet.specs.Write.{written_of};

use super::refused::refused;
use super::tested;
use config::refusal::Refusal;
use config::sequence::SeqNum;
use packet::writer::{PayloadWriter, Wrote};

#[derive(Clone, Copy)]
pub struct RetransmitRequest {
    // The first number that is asked for.
    pub seq: SeqNum,
    // How many; 0 for all from `seq` on.
    pub count: u16,
}

#[derive(Clone, Copy)]
pub struct RetransmitError {
    pub reason: u8,
    pub seq: SeqNum,
}

// Reasons of a Retransmit Error.
pub const UNKNOWN: u8 = 0;

pub const NOT_IN_BUFFER: u8 = 1;

impl RetransmitRequest {
    // 13, 3, 2 as for any command.
    pub fn write(self, p: PayloadWriter, buf: &mut [u8]) -> Wrote
        ensures { (result, buf.new) ≡ written_of p buf.old (request_packet self) }
    {
        if packet::tested::is_valid(p, buf.len()) {
            return tested::write_request(self, p, buf);
        }
        refused(p, Refusal::InvalidState)
    }
}

impl RetransmitError {
    // Whether the reason is one that M2-124-UM defines.
    pub fn is_defined(self) -> bool
        ensures { result ≡ is_defined self }
    {
        self.reason <= NOT_IN_BUFFER
    }

    // 13; 11 for a reason that is not defined; 3, 2.
    pub fn write(self, p: PayloadWriter, buf: &mut [u8]) -> Wrote
        ensures { (result, buf.new) ≡ error_written self p buf.old }
    {
        if packet::tested::is_valid(p, buf.len()) {
            return tested::write_error(self, p, buf);
        }
        refused(p, Refusal::InvalidState)
    }
}
