// A payload of one data command in one call, as a C function, which include/sirmjold.h declares. Its length comes by value: no
// words of a payload are lent. Further commands go after it as into any payload (crate c_codec), with its length and its limit.
//
//   theorems   a refused call changes nothing that was lent
#![tactic(auto)]

ghost use Rattle.std.specs.Prelude.{◌≡◌};
ghost use Rattle.c_payload.specs.Export.{made_of, payload_export};

use command::data::UmpData;
use packet::writer::{PayloadWriter, Wrote};

pub mod theorems;

// How many bytes are to be sent; 0 where `refusal` is not.
#[repr(C)]
#[derive(Clone, Copy)]
pub struct CMade {
    pub len: u64,
    pub refusal: u8,
}

fn made(wrote: Wrote) -> CMade
    ensures { result ≡ made_of wrote }
{
    let payload = wrote.payload;
    let answer = wrote.answer;
    match answer {
        Ok(()) => CMade {
            len: payload.len as u64,
            refusal: 0,
        },
        Err(why) => CMade {
            len: 0,
            refusal: why.number(),
        },
    }
}

// An empty payload of at most `max` bytes with UMP Data written into it: 4 as in opening a payload, then 5 and 3 as in writing.
#[unsafe(no_mangle)]
pub extern "C" fn sirmjold_ump_data_payload(
    buf: &mut [u8],
    max: usize,
    seq: u16,
    words: &[u32],
) -> CMade
    ensures { (result, buf.new) ≡ payload_export buf.old max seq words.now }
{
    match PayloadWriter::new(max) {
        Ok(payload) => made(UmpData::write(payload, buf, seq, words)),
        Err(why) => CMade {
            len: 0,
            refusal: why.number(),
        },
    }
}
