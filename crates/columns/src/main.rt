// A file of records of 16 bytes, stored by column: `columns` reads it from standard input in blocks of 4,096
// records, the last one shorter, and writes each block's first bytes, then its second (crate `sheet_blocks`).
// `columns restore` is the inverse.
//
// It streams: two buffers, whatever the length of the input. A last block whose length is not a multiple of 16
// is not written, but answers `refused 16` on standard error.
#![tactic(auto)]

use sheet_blocks::columns;
use std::io;
use std::rt::Env;
use text::blocks;

// The most bytes of an argument.
const WORD: usize = 4096;

// Stores a block by `stored`, and writes it, or why it is refused.
fn put<F: Fn(&[u8], &mut [u8]) -> u8>(
    rt: &(impl Print + Eprint),
    stored: &F,
    block: &[u8],
    to: &mut [u8],
) -> io::Result<()>
    requires { (f : F) (block : _) (to : _) → F.pre f block to }
{
    let answer = stored(block, to);
    if answer != 0 {
        return eprintln!(rt; "refused {answer}");
    }
    match to.get(..block.len()) {
        Some(done) => rt.write_all(done),
        None => Ok(()),
    }
}

fn all<F: Fn(&[u8], &mut [u8]) -> u8>(
    rt: &(impl Print + Eprint + Input),
    stored: F,
) -> io::Result<()>
    requires { (f : F) (block : _) (to : _) → F.pre f block to }
{
    let mut input = [0u8; blocks::SIZE];
    let mut to = [0u8; blocks::SIZE];
    blocks::each(rt, &mut input, |block| {
        put(rt, &stored, block, &mut to)?;
        Ok(true)
    })
}

// An argument that is missing or too long is as good as none.
fn main(rt: HostRuntime) -> io::Result<()> {
    let mut word = [0u8; WORD];
    let k = rt.arg(1, &mut word).unwrap_or(0);
    match &word[..k] {
        b"" => all(&rt, columns::columns),
        b"restore" => all(&rt, columns::restore),
        _ => eprintln!(rt; "columns [restore]"),
    }
}
