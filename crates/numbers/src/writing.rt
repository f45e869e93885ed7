// Numbers into bytes, the most significant byte first.
ghost use Rattle.std.specs.Prelude.{◌≡◌, ◌+◌, ◌≤◌, length};
ghost use Rattle.numbers.specs.Numbers.{bytes_of};
ghost use Rattle.numbers.specs.Parts.{over};

use crate::Number;

// Lays x into the bytes of d from `at` on, as many as its type takes.
#[tactic(auto, using(crate::proofs::Lending::returned))]
pub fn write<N: Number>(d: &mut [u8], at: usize, x: N)
    requires { at + N.WIDTH ≤ length d.old }
    ensures { d.new ≡ over at (bytes_of N.WIDTH (N.value x)) d.old }
{
    x.fill(&mut d[at..at + N::WIDTH]);
}
