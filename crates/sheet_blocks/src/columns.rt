// Blocks stored by column: all first bytes, then all second.
ghost use Rattle.std.specs.Prelude.{◌≡◌, ◌*◌, ◌+◌, ◌≤◌, ◌<◌, length};
ghost use Rattle.sheet_blocks.specs.Bytes.{spliced};
ghost use Rattle.sheet_blocks.specs.Columns.{every_of, by_column, stored_of, restored_of};

use super::records::{RECORD, is_block};
use config::refusal::Refusal;

// The bytes of `from`, the first at `first` and each `step` after the one before, `k` of them, from
// index `at` of `out` on.
fn put_every(out: &mut [u8], at: usize, from: &[u8], first: usize, step: usize, k: usize)
    requires { (at + k ≤ length out.old) × (first < step) × (k * step ≤ length from.now) × (step ≤ 4096) × (length from.now ≤ 65536) }
    ensures { out.new ≡ spliced out.old at (every_of from.now step k first) }
{
    for j in 0..k {
        out[at + j] = from[first + j * step];
    }
}

// The bytes of `from` as `rows` rows of `cols`, column after column, from the start of `out`.
fn put_columns(out: &mut [u8], from: &[u8], rows: usize, cols: usize)
    requires { (cols * rows ≤ length out.old) × (rows * cols ≤ length from.now) × (cols ≤ 4096) × (length from.now ≤ 65536) }
    ensures { out.new ≡ spliced out.old 0 (by_column from.now cols rows cols 0) }
{
    for c in 0..cols {
        put_every(out, c * rows, from, c, cols, rows);
    }
}

// Stores a block by column. 16 when its length is not a multiple of 16, or exceeds 65,536 bytes or the
// output.
pub fn columns(block: &[u8], out: &mut [u8]) -> u8
    ensures { (result, out.new) ≡ stored_of block.now out.old }
{
    if is_block(block.len(), out.len()) {
        let rows = block.len() / RECORD;
        put_columns(out, block, rows, RECORD);
        return 0;
    }
    Refusal::InvalidBlock.number()
}

// The inverse, refused alike.
pub fn restore(stored: &[u8], out: &mut [u8]) -> u8
    ensures { (result, out.new) ≡ restored_of stored.now out.old }
{
    if is_block(stored.len(), out.len()) {
        let rows = stored.len() / RECORD;
        put_columns(out, stored, RECORD, rows);
        return 0;
    }
    Refusal::InvalidBlock.number()
}
