// The loss sheet as C functions, which include/sirmjold.h declares. A sheet is its three figures, by value, and a
// ring of `n` words that the caller lends; answers are numbers.
#![tactic(auto)]

ghost use Rattle.std.specs.Prelude.{◌≡◌};
ghost use Rattle.sheet_blocks.specs.Columns.{stored_of, restored_of};
ghost use Rattle.loss_sheet.specs.Sheet.{start_of, block_of};

use loss_sheet::sheet;
use loss_sheet::sheet::{Answered, Sheet};
use sheet_blocks::columns;

// Nothing held; 12 when `n` is not 1 to 4,096, or not the ring's length.
#[unsafe(no_mangle)]
pub extern "C" fn sirmjold_sheet_start(n: usize, ring: &mut [u32]) -> Answered
    ensures { (result, ring.new) ≡ start_of n ring.old }
{
    sheet::start(n, ring)
}

// The figures of a block's records.
#[unsafe(no_mangle)]
pub extern "C" fn sirmjold_sheet_block(
    sheet: Sheet,
    ring: &mut [u32],
    block: &[u8],
    out: &mut [u8],
) -> Answered
    ensures { (result, ring.new, out.new) ≡ block_of sheet ring.old block.now out.old }
{
    sheet.block(ring, block, out)
}

// A block by column.
#[unsafe(no_mangle)]
pub extern "C" fn sirmjold_sheet_columns(block: &[u8], out: &mut [u8]) -> u8
    ensures { (result, out.new) ≡ stored_of block.now out.old }
{
    columns::columns(block, out)
}

// A block from its columns.
#[unsafe(no_mangle)]
pub extern "C" fn sirmjold_sheet_restore(stored: &[u8], out: &mut [u8]) -> u8
    ensures { (result, out.new) ≡ restored_of stored.now out.old }
{
    columns::restore(stored, out)
}
