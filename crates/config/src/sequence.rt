// Sequence numbers: 16 bits, and sums and differences wrap at 65,536.
ghost use Rattle.std.specs.Prelude.{◌≡◌};
ghost use Rattle.config.specs.Sequence.{after, ahead};

pub type SeqNum = u16;

// The number `n` after `seq`.
pub fn add(seq: SeqNum, n: u16) -> SeqNum
    ensures { result ≡ after seq n }
{
    std::num::wrapping_add_u16(seq, n)
}

// How far `to` is ahead of `from`, going up and round.
pub fn distance(from: SeqNum, to: SeqNum) -> u16
    ensures { result ≡ ahead from to }
{
    std::num::wrapping_sub_u16(to, from)
}
