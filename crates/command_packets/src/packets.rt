// A payload's commands, one after the other, by a reader that holds what is still unread.
ghost use Rattle.std.specs.Prelude.{◌≡◌};
ghost use Rattle.packet.specs.Read.{next_of};
ghost use Rattle.command_packets.specs.Held.{opened_of, step_of};

use super::unread;
use config::refusal::Refusal;
use packet::cursor::{Cursor, PacketItem};

#[derive(Clone, Copy)]
pub struct CommandPackets<'a> {
    // The unread bytes: the end of a payload, from a header on.
    pub rest: &'a [u8],
}

#[derive(Clone, Copy)]
pub struct Opened<'a> {
    // A reader of all commands; one with nothing to read where opening was refused.
    pub packets: CommandPackets<'a>,
    // The place of the first command, or the refusal.
    pub answer: Result<Cursor, Refusal>,
}

// One step. A command's payload stands beside the item, as in the definition `step_of`.
#[derive(Clone, Copy)]
pub struct Step<'a> {
    // The reader after the step.
    pub packets: CommandPackets<'a>,
    // The bytes of a whole command's words, a part of the caller's slice; none of another item.
    pub payload: &'a [u8],
    // What was found. Its places count from the front of the bytes that were unread.
    pub item: PacketItem,
}

// A reader of the payload's commands; 1 when the first four bytes are not the signature.
pub fn command_packets<'a>(payload: &'a [u8]) -> Opened<'a>
    ensures { (result.packets.rest.now, result.answer) ≡ opened_of payload.now }
{
    let answer = packet::cursor::command_packets(payload);
    let rest = unread::opened(payload, answer);
    Opened {
        packets: CommandPackets { rest },
        answer,
    }
}

impl<'a> CommandPackets<'a> {
    // The next item. A cut command leaves nothing unread; at the end all stays as it is.
    pub fn next(self) -> Step<'a>
        ensures { (result.packets.rest.now, (result.payload.now, result.item)) ≡ step_of self.entry.rest.now }
    {
        let rest = self.rest;
        let item = unread::front(rest);
        let payload = unread::payload(rest, item);
        let after = unread::after(rest, item);
        Step {
            packets: CommandPackets { rest: after },
            payload,
            item,
        }
    }
}

// The item that a reader of these bytes gives first.
fn first(rest: &[u8]) -> PacketItem
    ensures { result ≡ next_of rest.now 0 }
{
    let step = CommandPackets { rest }.next();
    step.item
}

// What a reader of the bytes from place `at` on gives first, with its places in the payload: the
// cursor's item.
pub fn next_at(payload: &[u8], at: usize) -> PacketItem
    ensures { result ≡ next_of payload.now at }
{
    match first(unread::from(payload, at)) {
        PacketItem::Command {
            header,
            at: _,
            next,
        } => {
            let size = next.at;
            PacketItem::Command {
                header,
                at,
                next: Cursor { at: at + size },
            }
        }
        PacketItem::Truncated(header) => PacketItem::Truncated(header),
        PacketItem::End => PacketItem::End,
    }
}
