// Output, gathered in a block and written when that is full.
//
//   0            used              block's end
//   | text ..     |  free           |
ghost use Rattle.std.specs.Prelude.{◌≡◌, cond, slice_set, ◌+◌, ◌*◌, ◌<◌, ◌≤◌, length, ltb, IfOk};
ghost use Rattle.std.specs.Fmt.{decimal};

use std::io;

// The units of the first digit of a byte, of 32 and of 64 bits in hexadecimal.
pub const BYTE: u64 = 0x10;

pub const WORD: u64 = 0x1000_0000;

pub const LONG: u64 = 0x1000_0000_0000_0000;

// A block that is lent to output. Each method that may write answers why output failed, if it did.
#[derive(Drop)]
pub struct Output<'a, R: Print> {
    rt: &'a R,
    pub block: &'a mut [u8],
    // The bytes that wait to be written.
    pub used: usize,
    ghost within: { used ≤ length block.now },
}

impl<'a, R: Print> Output<'a, R> {
    pub fn new(rt: &'a R, block: &'a mut [u8]) -> Self
        ensures size { length result.block.now ≡ length block.old }
        ensures empty { result.used ≡ 0 }
    {
        Output { rt, block, used: 0 }
    }

    // One byte; a full block is written first.
    pub fn byte(&mut self, b: u8) -> io::Result<()>
        ensures size { length self.new.block.now ≡ length self.old.block.now }
        ensures adds { IfOk result (λ _. self.old.used < length self.old.block.now → self.new.used ≡ self.old.used + 1) }
    {
        if self.used == self.block.len() {
            self.flush()?;
        }
        self.put(b);
        Ok(())
    }

    // One byte, where there is room: nothing is written, so nothing can fail.
    pub fn put(&mut self, b: u8)
        ensures size { length self.new.block.now ≡ length self.old.block.now }
        ensures adds { self.old.used < length self.old.block.now → self.new.used ≡ self.old.used + 1 }
        ensures stores { self.old.used < length self.old.block.now → self.new.block.now ≡ slice_set self.old.block.now self.old.used b }
        ensures full { self.old.used ≡ length self.old.block.now → (self.new.used ≡ self.old.used) × (self.new.block.now ≡ self.old.block.now) }
    {
        if self.used < self.block.len() {
            self.block[self.used] = b;
            self.used += 1;
        }
    }

    // Bytes as they stand.
    pub fn text(&mut self, s: &[u8]) -> io::Result<()>
        ensures size { length self.new.block.now ≡ length self.old.block.now }
        ensures adds { IfOk result (λ _. self.old.used + length s.now ≤ length self.old.block.now → self.new.used ≡ self.old.used + length s.now) }
    {
        let end = self.used.saturating_add(s.len());
        if end <= self.block.len() {
            self.block[self.used..end].copy_from_slice(s);
            self.used = end;
            return Ok(());
        }
        for &b in s {
            self.byte(b)?;
        }
        Ok(())
    }

    // A figure, without leading zeros.
    pub fn decimal(&mut self, n: u64) -> io::Result<()>
        ensures size { length self.new.block.now ≡ length self.old.block.now }
        ensures adds { IfOk result (λ _. self.old.used + length (decimal n) ≤ length self.old.block.now → self.new.used ≡ self.old.used + length (decimal n)) }
    {
        let mut digits = itoa::Buffer::new();
        self.text(digits.format(n).as_bytes())
    }

    // Bytes as digits, two for each.
    pub fn hex(&mut self, s: &[u8]) -> io::Result<()>
        ensures size { length self.new.block.now ≡ length self.old.block.now }
        ensures adds { IfOk result (λ _. self.old.used + 2 * length s.now ≤ length self.old.block.now → self.new.used ≡ self.old.used + 2 * length s.now) }
    {
        if s.len() <= (self.block.len() - self.used) / 2 {
            for &b in s {
                self.put(digit(b / 16));
                self.put(digit(b % 16));
            }
            return Ok(());
        }
        for &b in s {
            self.byte(digit(b / 16))?;
            self.byte(digit(b % 16))?;
        }
        Ok(())
    }

    // Bytes as digits, or `-` for none.
    pub fn bytes(&mut self, s: &[u8]) -> io::Result<()>
        ensures size { length self.new.block.now ≡ length self.old.block.now }
        ensures none { length s.now ≡ 0 → IfOk result (λ _. self.old.used + 1 ≤ length self.old.block.now → self.new.used ≡ self.old.used + 1) }
        ensures adds { 0 < length s.now → IfOk result (λ _. self.old.used + 2 * length s.now ≤ length self.old.block.now → self.new.used ≡ self.old.used + 2 * length s.now) }
    {
        if s.is_empty() {
            return self.byte(b'-');
        }
        self.hex(s)
    }

    // `n` words of the ring from place `head` on, round its end; `-` for none.
    pub fn words(&mut self, ring: &[u32], head: usize, n: usize) -> io::Result<()>
        ensures size { length self.new.block.now ≡ length self.old.block.now }
        ensures none { n ≡ 0 → IfOk result (λ _. self.old.used + 1 ≤ length self.old.block.now → self.new.used ≡ self.old.used + 1) }
        ensures adds { 0 < n → IfOk result (λ _. self.old.used + 8 * n ≤ length self.old.block.now → self.new.used ≡ self.old.used + 8 * n) }
    {
        if n == 0 {
            return self.byte(b'-');
        }
        let mut at = head;
        for _ in 0..n {
            let word = ring.get(at).copied().unwrap_or(0);
            self.hex(&word.to_be_bytes())?;
            at = after(at, ring.len());
        }
        Ok(())
    }

    // Writes what waits where fewer than `n` bytes are free.
    pub fn room(&mut self, n: usize) -> io::Result<()>
        ensures { IfOk result (λ _. n ≤ length self.new.block.now → self.new.used + n ≤ length self.new.block.now) }
    {
        if self.block.len() - self.used < n {
            self.flush()?;
        }
        Ok(())
    }

    // Writes what waits.
    pub fn flush(&mut self) -> io::Result<()>
        ensures size { length self.new.block.now ≡ length self.old.block.now }
        ensures empties { IfOk result (λ _. self.new.used ≡ 0) }
    {
        self.rt.write_all(&self.block[..self.used])?;
        self.used = 0;
        Ok(())
    }
}

impl<'a, R: Print> io::Write for Output<'a, R> {
    fn write(&mut self, bytes: &[u8]) -> io::Result<usize> {
        self.text(bytes)?;
        Ok(bytes.len())
    }

    fn flush(&mut self) -> io::Result<()> {
        Output::flush(self)
    }
}

// A digit as text: 0 to 9, A to F.
fn digit(n: u8) -> u8
    requires { n < 16 }
    ensures { result ≡ cond (ltb n 10) (48 + n) (55 + n) }
{
    if n < 10 {
        return b'0' + n;
    }
    b'A' - 10 + n
}

// The place after `at` in a ring of `size` places.
pub fn after(at: usize, size: usize) -> usize {
    if at < size && at + 1 < size {
        return at + 1;
    }
    0
}
