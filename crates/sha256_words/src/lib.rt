// The operations on words of FIPS 180-4, section 3.2, and the six functions of section 4.1.2.
#![tactic(auto)]

ghost use Rattle.std.specs.Prelude.{◌≡◌, ◌<◌};
ghost use Rattle.sha256_words.specs.Words.{◌⊞◌, ROTR};
ghost use Rattle.sha256_words.specs.Functions.{Ch, Maj, Σ₀, Σ₁, σ₀, σ₁};

// The sum modulo 2^32, under the standard's name: `wrapping_add` at each use would be no plainer.
pub fn add(x: u32, y: u32) -> u32
    ensures { result ≡ x ⊞ y }
{
    x.wrapping_add(y)
}

// The rotation to the right, of two shifts: `rotate_right` is plainer, but the order names this form, as the standard
// does. By 0 it would shift by the word's width.
#[tactic(auto, unfolding(crate::specs::Words::ROTR, crate::specs::Words::SHR, crate::specs::Words::SHL))]
pub fn rotr(x: u32, n: u32) -> u32
    requires n_nonzero { 0 < n }
    requires n_bound { n < 32 }
    ensures { result ≡ ROTR n x }
{
    (x >> n) | (x << (32 - n))
}

#[tactic(auto, unfolding(crate::specs::Functions::Ch))]
pub fn ch(x: u32, y: u32, z: u32) -> u32
    ensures { result ≡ Ch x y z }
{
    (x & y) ^ (!x & z)
}

#[tactic(auto, unfolding(crate::specs::Functions::Maj))]
pub fn maj(x: u32, y: u32, z: u32) -> u32
    ensures { result ≡ Maj x y z }
{
    (x & y) ^ (x & z) ^ (y & z)
}

// The four sums of rotations, a function for each of the standard's names: one with three const parameters would be called
// by its numbers.
pub fn big_sigma0(x: u32) -> u32
    ensures { result ≡ Σ₀ x }
{
    rotr(x, 2) ^ rotr(x, 13) ^ rotr(x, 22)
}

pub fn big_sigma1(x: u32) -> u32
    ensures { result ≡ Σ₁ x }
{
    rotr(x, 6) ^ rotr(x, 11) ^ rotr(x, 25)
}

pub fn sigma0(x: u32) -> u32
    ensures { result ≡ σ₀ x }
{
    rotr(x, 7) ^ rotr(x, 18) ^ (x >> 3)
}

pub fn sigma1(x: u32) -> u32
    ensures { result ≡ σ₁ x }
{
    rotr(x, 17) ^ rotr(x, 19) ^ (x >> 10)
}
