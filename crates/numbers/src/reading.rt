// Numbers out of bytes, the most significant byte first.
ghost use Rattle.std.specs.Prelude.{◌≡◌, ◌+◌, ◌≤◌, length};
ghost use Rattle.numbers.specs.Numbers.{be};
ghost use Rattle.numbers.specs.Parts.{part};

use crate::Number;

// The number in the bytes of s from `at` on, as many as its type takes.
#[tactic(auto, using(crate::proofs::Lending::lent))]
pub fn read<N: Number>(s: &[u8], at: usize) -> N
    requires { at + N.WIDTH ≤ length s.now }
    ensures { N.value result ≡ be (part at N.WIDTH s.now) }
{
    N::from_bytes(&s[at..at + N::WIDTH])
}
