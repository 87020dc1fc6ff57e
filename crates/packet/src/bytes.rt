// Words as four bytes, the highest first.
ghost use Rattle.std.specs.Prelude.{◌≡◌, [], ◌+◌, ◌*◌, ◌≤◌, length, get_or};
ghost use Rattle.packet.specs.Bytes.{word_bytes, bytes_of, word_of, spliced};

// Stores the word `w` from index `at`.
pub fn put_word(buf: &mut [u8], at: usize, w: u32)
    requires { at + 4 ≤ length buf.old }
    ensures { buf.new ≡ spliced buf.old at (word_bytes w []) }
{
    buf[at..at + 4].copy_from_slice(&w.to_be_bytes());
}

// Stores all the words, one after the other, from index `at`.
pub fn put_words(buf: &mut [u8], at: usize, words: &[u32])
    requires { at + 4 * length words.now ≤ length buf.old }
    ensures { buf.new ≡ spliced buf.old at (bytes_of words.now) }
{
    for (j, w) in words.iter().enumerate() {
        put_word(buf, at + 4 * j, *w);
    }
}

// The word whose bytes stand from index `at`.
pub fn get_word(s: &[u8], at: usize) -> u32
    requires { at + 4 ≤ length s.now }
    ensures { result ≡ word_of (get_or s.now at 0) (get_or s.now (at + 1) 0) (get_or s.now (at + 2) 0) (get_or s.now (at + 3) 0) }
{
    u32::from_be_bytes([s[at], s[at + 1], s[at + 2], s[at + 3]])
}
