// The words of a command's bytes, and how they divide into messages.
ghost use Rattle.std.specs.Prelude.{◌≡◌, ◌≤◌, length};
ghost use Rattle.packet.specs.Bytes.{words_of, spliced};
ghost use Rattle.read_command.specs.Words.{whole_count, lengths_of};

use command::message::{message_at, word_at};

// Stores the words at the front of `out`, and tells how many they are.
pub fn put(body: &[u8], out: &mut [u32]) -> usize
    requires { length (words_of body.now) ≤ length out.old }
    ensures { (result ≡ length (words_of body.now)) × (out.new ≡ spliced out.old 0 (words_of body.now)) }
{
    let n = body.len() / 4;
    for j in 0..n {
        out[j] = word_at(body, j);
    }
    n
}

// Stores the lengths of the whole messages at the front of `out`, and tells how many words these have.
pub fn lengths(words: &[u32], out: &mut [u8]) -> usize
    requires { length words.now ≤ length out.old }
    ensures { (result ≡ whole_count words.now) × (result ≤ length words.now) × (out.new ≡ spliced out.old 0 (lengths_of words.now)) }
{
    let mut i = 0;
    let mut k = 0;
    // The length of the message before, as in `command::message::whole_words`.
    let mut same = 1;
    // A `while`, as there.
    while i < words.len() {
        let n = message_at(words, i);
        if n != same {
            if n == 0 {
                return i;
            }
            same = n;
        }
        out[k] = same as u8;
        i += same;
        k += 1;
    }
    i
}
