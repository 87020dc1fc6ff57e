// Figures over the last n arrivals, while a file goes by in blocks.
ghost use Rattle.std.specs.Prelude.{◌≡◌, ◌||◌, eqb, ◌*◌, ◌+◌, ◌≤◌, ◌<◌, length, take, IfOk, IfErr};
ghost use Rattle.sheet_blocks.specs.Bytes.{spliced};
ghost use Rattle.loss_sheet.specs.Figures.{figures};
ghost use Rattle.loss_sheet.specs.inner.Fits.{Good};
ghost use Rattle.sheet_blocks.specs.Records.{entries};
ghost use Rattle.config.specs.Refusals.{number_of};
ghost use Rattle.loss_sheet.specs.Sheet.{all_below, state_ok, answer_of, start_of, block_of, next_of, pushed, pushed_all, held, sheet_bytes};

use super::figures;
use super::figures::Figures;
use config::range::outside;
use config::refusal::Refusal;
use sheet_blocks::records;
use sheet_blocks::records::RECORD;

pub const MAX_ARRIVALS: usize = 4096;

// Lies in memory as in C, and so does `Answered`: crate `c_sheet` hands them out.
#[repr(C)]
#[derive(Clone, Copy)]
pub struct Sheet {
    // How many arrivals the figures go over, 1 to 4,096: the words of the lent ring.
    pub n: usize,
    // The place of the oldest word held; 0 until `n` are held.
    pub head: usize,
    // How many words are held, at most `n`.
    pub len: usize,
}

// The state after a call, as it was where the call was refused; the answer is 0, or the refusal's number.
#[repr(C)]
#[derive(Clone, Copy)]
pub struct Answered {
    pub sheet: Sheet,
    pub refusal: u8,
}

// The state inside a call, with the figures of the words held.
#[derive(Clone, Copy)]
pub struct Running {
    pub sheet: Sheet,
    pub figures: Figures,
}

// Nothing held, and every word of the lent ring 0. 12 when `n` is not 1 to 4,096, or not the ring's
// length.
#[tactic(auto, unfolding(crate::specs::Sheet::start_of))]
pub fn start(n: usize, ring: &mut [u32]) -> Answered
    ensures { (result, ring.new) ≡ start_of n ring.old }
{
    let sheet = Sheet { n, head: 0, len: 0 };
    if outside(1, MAX_ARRIVALS, n) || ring.len() != n {
        return Answered {
            sheet,
            refusal: Refusal::SizeNotAllowed.number(),
        };
    }
    ring.fill(0);
    Answered { sheet, refusal: 0 }
}

// Whether every word is below `limit`.
fn all_below(words: &[u32], limit: u32) -> bool
    ensures { result ≡ all_below limit words.now }
{
    words.iter().all(|&w| w < limit)
}

// The place after `i` in a ring of `n`.
fn next(n: usize, i: usize) -> usize
    requires { (i < n) × (n ≤ 4096) }
    ensures { (result ≡ next_of n i) × (result < n) }
{
    if i + 1 < n { i + 1 } else { 0 }
}

// One arrival more; where all `n` places are taken, the oldest leaves.
fn push(g: Running, ring: &mut [u32], w: u32) -> Running
    requires { Good g.sheet ring.old × (g.figures ≡ figures (take g.sheet.len ring.old)) }
    ensures { ((result.sheet, ring.new) ≡ pushed g.sheet ring.old w) × (result.figures ≡ figures (take result.sheet.len ring.new)) }
{
    let sheet = g.sheet;
    if sheet.len < sheet.n {
        ring[sheet.len] = w;
        return Running {
            sheet: Sheet {
                len: sheet.len + 1,
                ..sheet
            },
            figures: figures::add(g.figures, w),
        };
    }
    let less = figures::sub(g.figures, ring[sheet.head]);
    ring[sheet.head] = w;
    Running {
        sheet: Sheet {
            head: next(sheet.n, sheet.head),
            ..sheet
        },
        figures: figures::add(less, w),
    }
}

// The figures of a block's `k` records, each over the last `n` arrivals up to it.
fn run(s: Sheet, ring: &mut [u32], block: &[u8], k: usize, out: &mut [u8]) -> Sheet
    requires { Good s ring.old × (16 * k ≤ length block.now) × (16 * k ≤ length out.old) × (k ≤ 4096) }
    ensures { ((result, ring.new) ≡ pushed_all s ring.old (entries block.now k 0))
        × (out.new ≡ spliced out.old 0 (sheet_bytes s.n (held s ring.old) (entries block.now k 0))) }
{
    let used = s.len;
    let mut g = Running {
        sheet: s,
        figures: figures::of(&ring[..used]),
    };
    for i in 0..k {
        g = push(g, ring, records::entry(block, i * RECORD));
        figures::put(out, i * RECORD, g.figures);
    }
    g.sheet
}

impl Sheet {
    // The head is the first place until all are taken.
    fn head_ok(self) -> bool
        ensures { result ≡ (eqb self.head 0 || eqb self.len self.n) }
    {
        self.head == 0 || self.len == self.n
    }

    // The state test, over the lent ring.
    #[tactic(auto, using(crate::proofs::States::rest_is), unfolding(crate::specs::Sheet::state_ok))]
    fn state_ok(self, ring: &[u32]) -> bool
        ensures { result ≡ state_ok self ring.now }
    {
        ring.len() == self.n
            && self.head < self.n
            && self.len <= self.n
            && self.head_ok()
            && all_below(&ring[..self.len], 0x3_0000)
            && all_below(&ring[self.len..], 1)
    }

    // Why a block is refused, if it is.
    #[tactic(auto, unfolding(crate::specs::Sheet::answer_of, crate::specs::Sheet::taken_of))]
    fn test(self, ring: &[u32], block: &[u8], room: usize) -> Result<(), Refusal>
        ensures ok { IfOk result (λ _. answer_of self ring.now block.now room ≡ 0) }
        ensures err { IfErr result (λ why. answer_of self ring.now block.now room ≡ number_of why) }
    {
        if outside(1, MAX_ARRIVALS, self.n) {
            return Err(Refusal::SizeNotAllowed);
        }
        if !self.state_ok(ring) {
            return Err(Refusal::InvalidState);
        }
        if !records::is_block(block.len(), room) {
            return Err(Refusal::InvalidBlock);
        }
        if !records::are_records(block, block.len() / RECORD) {
            return Err(Refusal::InvalidRecord);
        }
        Ok(())
    }

    // The figures of each record of a block, in order. 12 when `n` is not 1 to 4,096; 13 for a state
    // that no call has left; 16 when the block's length is not a multiple of 16, or exceeds 65,536
    // bytes or the output; 17 when a class is above 2 or a zero byte is not zero.
    #[tactic(auto, unfolding(crate::specs::Sheet::block_of))]
    pub fn block(self, ring: &mut [u32], block: &[u8], out: &mut [u8]) -> Answered
        ensures { (result, ring.new, out.new) ≡ block_of self ring.old block.now out.old }
    {
        match self.test(&ring[..], block, out.len()) {
            Ok(()) => {
                let sheet = run(self, ring, block, block.len() / RECORD, out);
                Answered { sheet, refusal: 0 }
            }
            Err(why) => Answered {
                sheet: self,
                refusal: why.number(),
            },
        }
    }
}
