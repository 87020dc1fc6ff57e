// Figures over the last N arrivals of a file: `sheet N`, with records of 16 bytes on standard input, and 16 bytes of
// figures for each on standard output (crate `loss_sheet`).
//
// It streams: blocks of 4,096 records, whatever the length of the input. Where a record is refused, the figures
// before it are written, then `refused 17` on standard error; 16 for a cut record, 12 for an N that is not a number
// from 1 to 4,096.
#![tactic(auto)]

use loss_sheet::sheet;
use loss_sheet::sheet::Sheet;
use std::io;
use std::rt::Env;
use text::blocks;
use text::fields::Fields;

// The bytes of a record.
const RECORD: usize = 16;

// A sheet, and what is lent to it.
#[derive(Drop)]
struct Run<'r, 'a, R: Print + Eprint> {
    rt: &'r R,
    sheet: Sheet,
    ring: &'a mut [u32],
    to: &'a mut [u8],
}

impl<'r, 'a, R: Print + Eprint> Run<'r, 'a, R> {
    // The figures of some records, written where they are not refused; 0, or the refusal's number.
    fn step(&mut self, bytes: &[u8]) -> io::Result<u8> {
        let rt = self.rt;
        let a = self.sheet.block(self.ring, bytes, self.to);
        self.sheet = a.sheet;
        if a.refusal == 0 {
            if let Some(done) = self.to.get(..bytes.len()) {
                rt.write_all(done)?;
            }
        }
        Ok(a.refusal)
    }

    // The figures of a block; where it is refused, those of its records, each as a block of its own, up to the first
    // that is refused. Answers whether another block is wanted.
    fn block(&mut self, bytes: &[u8]) -> io::Result<bool> {
        if self.step(bytes)? == 0 {
            return Ok(true);
        }
        for record in bytes.chunks(RECORD) {
            let answer = self.step(record)?;
            if answer != 0 {
                refused(self.rt, answer)?;
                break;
            }
        }
        Ok(false)
    }
}

fn refused(rt: &impl Eprint, answer: u8) -> io::Result<()> {
    eprintln!(rt; "refused {answer}")
}

// The number that an argument is; none where it is no number, or one past 65,535.
fn number(word: &[u8]) -> Option<usize> {
    let mut fields = Fields::new(word);
    let n = fields.figure(0xFFFF)?;
    fields.is_done().then_some(n as usize)
}

// An argument that is missing, too long or no number is as good as 0.
fn main(rt: HostRuntime) -> io::Result<()> {
    let mut word = [0u8; 31];
    let k = rt.arg(1, &mut word).unwrap_or(0);
    let n = number(&word[..k]).unwrap_or(0);
    let mut words = [0u32; sheet::MAX_ARRIVALS];
    let places = n.min(words.len());
    let ring = &mut words[..places];
    let started = sheet::start(n, ring);
    if started.refusal != 0 {
        return refused(&rt, started.refusal);
    }
    let mut input = [0u8; blocks::SIZE];
    let mut to = [0u8; blocks::SIZE];
    let mut run = Run {
        rt: &rt,
        sheet: started.sheet,
        ring,
        to: &mut to,
    };
    blocks::each(&rt, &mut input, |bytes| run.block(bytes))
}
