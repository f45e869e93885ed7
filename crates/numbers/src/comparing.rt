// Comparing bytes without an early exit: how long a comparison takes goes by the lengths alone.
ghost use Rattle.std.specs.Prelude.{◌≡◌, length, replicate};
ghost use Rattle.numbers.specs.Comparing.{same};

// Whether a and b hold the same bytes.
pub fn same(a: &[u8], b: &[u8]) -> bool
    ensures { result ≡ same a.now b.now }
{
    a.len() == b.len() && a.iter().zip(b).fold(0, |differ, (x, y)| differ | (x ^ y)) == 0
}

// Whether every byte of s is zero.
pub fn all_zero(s: &[u8]) -> bool
    ensures { result ≡ same s.now (replicate (length s.now) 0) }
{
    s.iter().fold(0, |any, x| any | x) == 0
}
