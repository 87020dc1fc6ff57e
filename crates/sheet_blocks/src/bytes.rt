// Words as four bytes, the highest first.
ghost use Rattle.std.specs.Prelude.{◌≡◌, [], ◌+◌, ◌≤◌, length};
ghost use Rattle.sheet_blocks.specs.Bytes.{word_bytes, spliced};

// Stores the word `w` from index `at`.
pub fn put_word(buf: &mut [u8], at: usize, w: u32)
    requires { at + 4 ≤ length buf.old }
    ensures { buf.new ≡ spliced buf.old at (word_bytes w []) }
{
    buf[at..at + 4].copy_from_slice(&w.to_be_bytes());
}
