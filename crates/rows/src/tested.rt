// Rows of entries, the row of an error, and the entries that are repeated, over a payload and entries
// that were tested.
ghost use Rattle.std.specs.Prelude.{◌≡◌, true, [], ◌∷◌, ◌≤◌, ◌<◌, length};
ghost use Rattle.packet.specs.Write.{valid_of, free_of};
ghost use Rattle.command.specs.Write.{error_packet};
ghost use Rattle.history.specs.Headers.{length_at, header_at, words_from};
ghost use Rattle.rows.specs.Rows.{row_of, leaving, packets_from, Standing};
ghost use Rattle.rows.specs.Choice.{Chosen};

use super::rows::{Repeated, Row, Walked};
use command::retransmit::RetransmitError;
use packet::writer::{PayloadWriter, Wrote};

// Writes `k` entries of the history from the header at `at` on.
pub fn write_entries(p: PayloadWriter, buf: &mut [u8], ring: &[u32], at: usize, k: usize) -> Row
    requires { (valid_of p (length buf.old) ≡ true) × Standing k ring.now at }
    ensures { row_of p buf.old (packets_from k ring.now at) ≡ leaving result buf.new }
{
    let mut q = p;
    let mut i = at;
    for n in 0..k {
        let wrote = history::tested::write_entry(q, buf, ring, i);
        let answer = wrote.answer;
        q = wrote.payload;
        match answer {
            Err(_) => {
                return Row {
                    payload: q,
                    written: n,
                    whole: false,
                };
            }
            Ok(()) => {
                i = history::tested::next_index(ring, i);
            }
        }
    }
    Row {
        payload: q,
        written: k,
        whole: true,
    }
}

// Writes an error as the only command of a row.
pub fn write_error(err: RetransmitError, p: PayloadWriter, buf: &mut [u8]) -> Row
    requires { (valid_of p (length buf.old) ≡ true) × (err.reason ≤ 1) }
    ensures { row_of p buf.old (error_packet err ∷ []) ≡ leaving result buf.new }
{
    let Wrote { payload, answer } = command::tested::write_error(err, p, buf);
    let whole = answer.is_ok();
    Row {
        payload,
        written: usize::from(whole),
        whole,
    }
}

// Walks over `k` entries from the header at `at` on.
pub fn walk(ring: &[u32], at: usize, k: usize) -> Walked
    requires { Standing k ring.now at × (words_from k ring.now at ≤ 32768) }
    ensures { (result.at ≡ header_at k ring.now at) × (result.at < length ring.now) × (result.words ≡ words_from k ring.now at) }
{
    let mut i = at;
    let mut words = 0;
    for _ in 0..k {
        words += 1 + history::tested::pl(ring, i);
        i = history::tested::next_index(ring, i);
    }
    Walked { at: i, words }
}

// Of `k` entries from the header at `at` on, which take `words` words, those that fit beside the one
// at `first`; the oldest are dropped first.
pub fn repeats(
    p: PayloadWriter,
    buf: &[u8],
    ring: &[u32],
    at: usize,
    k: usize,
    words: usize,
    first: usize,
) -> Repeated
    requires { Standing k ring.now at × (words ≡ words_from k ring.now at) × (first < length ring.now) × (length_at ring.now first < free_of p (length buf.now)) }
    ensures { Chosen p buf.now ring.now at k first result }
{
    let free = packet::tested::free_words(p, buf.len());
    let room = free - (1 + history::tested::pl(ring, first));
    let mut i = at;
    let mut count = k;
    let mut left = words;
    // A `while`: entries are dropped by the words that are left, not by their count.
    while room < left {
        left -= 1 + history::tested::pl(ring, i);
        i = history::tested::next_index(ring, i);
        count -= 1;
    }
    Repeated {
        at: i,
        count,
        words: left,
    }
}
