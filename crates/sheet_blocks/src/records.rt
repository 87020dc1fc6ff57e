// Records of 16 bytes, in blocks.
//
//   0 .. 7 time | 8, 9 number | 10 class | 11 zero | 12, 13 loss count | 14, 15 loss first
ghost use Rattle.std.specs.Prelude.{◌≡◌, ◌*◌, ◌+◌, ◌≤◌, ◌<◌, length};
ghost use Rattle.sheet_blocks.specs.Records.{is_block, entry_at, all_records};

pub const RECORD: usize = 16;

pub const MAX_BLOCK: usize = 0x1_0000;

// Whether `len` bytes are whole records, not too many, and fit in `room`.
#[tactic(auto, unfolding(crate::specs::Records::is_block))]
pub fn is_block(len: usize, room: usize) -> bool
    ensures { result ≡ is_block len room }
{
    len % RECORD == 0 && len <= MAX_BLOCK && len <= room
}

// The word that is kept of the record at `at`: class * 65,536 + loss count.
#[tactic(auto, unfolding(crate::specs::Records::entry_at))]
pub fn entry(block: &[u8], at: usize) -> u32
    requires { at + 16 ≤ length block.now }
    ensures { result ≡ entry_at block.now at }
{
    u32::from(block[at + 10]) * 0x1_0000
        + u32::from(block[at + 12]) * 0x100
        + u32::from(block[at + 13])
}

// Whether every class is at most 2 and every zero byte zero.
pub fn are_records(block: &[u8], k: usize) -> bool
    requires { 16 * k ≤ length block.now }
    ensures { result ≡ all_records block.now k 0 }
{
    (0..k).all(|i| block[i * RECORD + 10] <= 2 && block[i * RECORD + 11] == 0)
}
