// Blocks of input without lines, each filled before it is used.
ghost use Rattle.std.specs.Prelude.{◌≡◌, length, IfOk, OnErr};
ghost use Rattle.text.specs.Counts.{IsPrefixLen};

use std::io;
use std::io::Read;

// The bytes of a block of input or output.
pub const SIZE: usize = 65536;

// Reads until the block is full or the input ends, and answers how many bytes it has.
pub fn full(rt: &impl io::Input, input: &mut [u8]) -> io::Result<usize>
    ensures ok { IfOk result (λ n. IsPrefixLen n input.new) }
    ensures err { OnErr result (length input.new ≡ length input.old) }
    ensures size { length input.new ≡ length input.old }
{
    let mut reader = rt.reader();
    let mut done = 0;
    // No `for`: how far a turn comes is what the reader says.
    while done < input.len() {
        let n = reader.read(&mut input[done..])?;
        if n == 0 {
            return Ok(done);
        }
        done += n;
    }
    Ok(done)
}

// Gives each block of the input to `step`, which answers whether another is wanted; the last one is not full. A
// proved loop has to end, and nothing says that the input does: it counts to a number that no run reaches.
pub fn each<F: FnMut(&[u8]) -> io::Result<bool>>(
    rt: &impl io::Input,
    input: &mut [u8],
    mut step: F,
) -> io::Result<()>
    requires { F.IsAlwaysCallable step }
    ensures size { length input.new ≡ length input.old }
{
    for _ in 0..u64::MAX {
        let n = full(rt, input)?;
        if !step(&input[..n])? || n < input.len() {
            break;
        }
    }
    Ok(())
}
