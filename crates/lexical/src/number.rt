// Digits and the numbers that they write.
ghost use Rattle.std.specs.Prelude.{◌≡◌, ◌-◌, ◌<◌, min, leb};
ghost use Rattle.lexical.specs.Number;
ghost use Rattle.lexical.specs.Number.{number_at};

// A digit's value; 0 for a byte below the digits.
pub fn digit(b: u8) -> u64
    ensures value { result ≡ b - 48 }
    ensures upper_bound { result < 256 }
{
    u64::from(b.saturating_sub(b'0'))
}

// One above the largest integer literal.
pub const LIMIT: u64 = 2147483648;

// The number that the digits from start to end write, or the limit where that is smaller.
pub fn number_at(s: &[u8], start: usize, end: usize) -> u64
    ensures { result ≡ min (number_at s.now start end) Number.LIMIT }
{
    let mut v: u64 = 0;
    for i in start..end.min(s.len()) {
        v = LIMIT.min(v * 10 + digit(s[i]));
    }
    v
}

// Do the digits from start to end write the limit or more? No seven bytes do.
#[tactic(auto, using(crate::proofs::NumberWays::large))]
pub fn is_large(s: &[u8], start: usize, end: usize) -> bool
    ensures { result ≡ leb Number.LIMIT (number_at s.now start end) }
{
    8 <= end.saturating_sub(start) && LIMIT <= number_at(s, start, end)
}
