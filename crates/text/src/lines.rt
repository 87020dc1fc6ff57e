// Lines of input that is read in blocks. A line's bytes are gathered in a line buffer:
//
//   0             used       buffer's end
//   | line so far  |  free    |
//
// The buffer has two bytes more than the longest line, so that a full one is a line too long even
// where its last byte is a carriage return.
ghost use Rattle.std.specs.Prelude.{◌≡◌, ◌≤◌, length, false, IfOk, IfSome};

use super::out::Output;
use std::io;
use std::io::Read;

// The most bytes of a line.
pub const LIMIT: usize = 4096;

// A block and a line buffer that are lent to input, and what is left of the block.
//
//   0          at             have      block's end
//   | read      |  to be read  |         |
#[derive(Drop)]
pub struct Lines<'a, R: io::Input> {
    rt: &'a R,
    block: &'a mut [u8],
    at: usize,
    have: usize,
    // No block follows.
    ended: bool,
    line: &'a mut [u8],
    ghost begins: { at ≤ have },
    ghost within: { have ≤ length block.now },
}

impl<'a, R: io::Input> Lines<'a, R> {
    // Nothing was read yet.
    pub fn new(rt: &'a R, block: &'a mut [u8], line: &'a mut [u8]) -> Self
        ensures size { (length result.block.now ≡ length block.old) × (length result.line.now ≡ length line.old) }
        ensures start { (result.at ≡ 0) × (result.have ≡ 0) }
        ensures open { result.ended ≡ false }
    {
        Lines {
            rt,
            block,
            at: 0,
            have: 0,
            ended: false,
            line,
        }
    }

    // The next line without its end; the last one may have none. Where the block has no newline more, the output
    // that waits is written and the next block read.
    pub fn next(&mut self, out: &mut Output<'_, impl Print>) -> io::Result<Option<&[u8]>>
        ensures line { IfOk result (λ o. IfSome o (λ s. length s.now ≤ length self.old.line.now)) }
        ensures size { length out.new.block.now ≡ length out.old.block.now }
        ensures waits { IfOk result (λ _. out.new.used ≤ out.old.used) }
    {
        match self.gathered(out)? {
            Some(n) => Ok(Some(&self.line[..n])),
            None => Ok(None),
        }
    }

    // Answers each line but empty ones and remarks, and writes what waits at the end.
    pub fn each<P: Print, F: FnMut(&mut Output<'_, P>, &[u8]) -> io::Result<()>>(
        &mut self,
        out: &mut Output<'_, P>,
        mut answer: F,
    ) -> io::Result<()>
        requires { F.IsAlwaysCallable answer }
        ensures empties { IfOk result (λ _. out.new.used ≡ 0) }
        ensures block { length self.new.block.now ≡ length self.old.block.now }
    {
        for _ in 0..u64::MAX {
            let Some(n) = self.gathered(out)? else {
                break;
            };
            let line = &self.line[..n];
            if !skipped(line) {
                answer(out, line)?;
            }
        }
        out.flush()
    }

    // Gathers the next line, and answers its length. A proved loop has to end, and nothing says that the input does:
    // it counts to a number that no run reaches.
    fn gathered(&mut self, out: &mut Output<'_, impl Print>) -> io::Result<Option<usize>>
        ensures line { IfOk result (λ o. IfSome o (λ n. n ≤ length self.new.line.now)) }
        ensures room { length self.new.line.now ≡ length self.old.line.now }
        ensures block { length self.new.block.now ≡ length self.old.block.now }
        ensures size { length out.new.block.now ≡ length out.old.block.now }
        ensures waits { IfOk result (λ _. out.new.used ≤ out.old.used) }
    {
        let mut used = 0;
        for _ in 0..u64::MAX {
            if self.ended {
                break;
            }
            let block = &self.block[self.at..self.have];
            if let Some(n) = block.iter().position(|b| *b == b'\n') {
                used = put(self.line, used, &block[..n]);
                self.at += n + 1;
                return Ok(Some(bare(&self.line[..used])));
            }
            used = put(self.line, used, block);
            out.flush()?;
            self.fetch()?;
        }
        Ok((0 < used).then_some(used))
    }

    // Reads what input there is, as much as there is room for.
    fn fetch(&mut self) -> io::Result<()>
        ensures line { length self.new.line.now ≡ length self.old.line.now }
        ensures block { length self.new.block.now ≡ length self.old.block.now }
    {
        self.at = 0;
        self.have = 0;
        self.have = self.rt.reader().read(self.block)?;
        self.ended = self.have == 0;
        Ok(())
    }
}

// Adds bytes to a line, as far as there is room.
fn put(line: &mut [u8], used: usize, part: &[u8]) -> usize
    requires { used ≤ length line.old }
    ensures used { result ≤ length line.new }
    ensures size { length line.new ≡ length line.old }
{
    let n = part.len().min(line.len() - used);
    line[used..used + n].copy_from_slice(&part[..n]);
    used + n
}

// The length of a line without the carriage return before its newline.
fn bare(line: &[u8]) -> usize
    ensures { result ≤ length line.now }
{
    line.strip_suffix(b"\r").unwrap_or(line).len()
}

// Empty lines and remarks are no calls.
pub fn skipped(line: &[u8]) -> bool {
    line.is_empty() || line.starts_with(b"#")
}
