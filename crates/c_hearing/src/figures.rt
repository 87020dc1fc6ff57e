// A command as it was read, and what a call answered, in words. Figures of 16 bits are packed, the first
// lowest; two of 8 bits stand in one of them.
//
//   as read      kind, code | words | number | count
//   data         refusal, class | skipped | first and count of the gap
//                first and count of the loss
//   a request    refusal, kind | reason | number
//   an error     refusal, kind | reason | number
//                first and count of the loss
ghost use Rattle.std.specs.Prelude.{◌≡◌};
ghost use Rattle.c_state.specs.Pack.{word as word_of, pair as pair_of};
ghost use Rattle.read_command.specs.Next.{command_read};
ghost use Rattle.c_hearing.specs.Figures.{read_word, number_figures, delivery_figures, outcome_figures, event_figures};

use c_answers::answers::{CDelivery, CEvent, COutcome};
use c_state::pack;
use command::parse::Command;
use config::refusal::Refusal;

// What was answered.
#[derive(Clone, Copy)]
pub struct Figures {
    pub first: u64,
    pub second: u64,
}

// A command by its figures.
pub fn read(kind: u8, code: u8, len: u8, seq: u16, count: u16) -> u64
    ensures { result ≡ word_of (pair_of kind code) len seq count }
{
    pack::word(pack::pair(kind, code), len as u16, seq, count)
}

// A command of `len` words.
pub fn of_command(len: u8, command: Result<Command, Refusal>) -> u64
    ensures { result ≡ read_word (command_read len 0 0 command) }
{
    match command {
        Ok(Command::UmpData(d)) => read(3, 0, len, d.seq, 0),
        Ok(Command::RetransmitRequest(r)) => read(4, 0, len, r.seq, r.count),
        Ok(Command::RetransmitError(e)) => read(5, e.reason, len, e.seq, 0),
        Ok(Command::Raw(h)) => read(2, h.code, len, h.csd(), 0),
        Err(_) => read(0, 0, len, 0, 0),
    }
}

// The answer to a command that no call takes: 0, or the number by which it is refused.
pub fn of_number(n: u8) -> Figures
    ensures { result ≡ number_figures n }
{
    Figures {
        first: n as u64,
        second: 0,
    }
}

pub fn of_delivery(d: CDelivery) -> Figures
    ensures { result ≡ delivery_figures d }
{
    Figures {
        first: pack::word(
            pack::pair(d.refusal, d.class),
            d.skipped,
            d.gap_first,
            d.gap_count,
        ),
        second: pack::word(d.lost_first, d.lost_count, 0, 0),
    }
}

pub fn of_outcome(o: COutcome) -> Figures
    ensures { result ≡ outcome_figures o }
{
    Figures {
        first: pack::word(pack::pair(o.refusal, o.kind), o.reason as u16, o.seq, 0),
        second: 0,
    }
}

pub fn of_event(e: CEvent) -> Figures
    ensures { result ≡ event_figures e }
{
    Figures {
        first: pack::word(pack::pair(e.refusal, e.kind), e.reason as u16, e.seq, 0),
        second: pack::word(e.first, e.count, 0, 0),
    }
}
