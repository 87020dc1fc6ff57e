// Figures and their ranges.
ghost use Rattle.std.specs.Prelude.{◌≡◌, min};
ghost use Rattle.config.specs.Range.{outside as outside_of};

// Whether `n` lies outside `low` to `high`, both ends taken.
pub fn outside(low: usize, high: usize, n: usize) -> bool
    ensures { result ≡ outside_of low high n }
{
    if n < low {
        return true;
    }
    high < n
}

// The smaller of the two.
pub fn least(a: usize, b: usize) -> usize
    ensures { result ≡ min a b }
{
    if a <= b { a } else { b }
}
