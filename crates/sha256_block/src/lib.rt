// One block of FIPS 180-4, section 6.2.2: the schedule's next word (step 1) and the rounds (steps 2 to 4),
// with the constants of section 4.2.2.
#![tactic(auto)]

ghost use Rattle.std.specs.Prelude.{◌≡◌, ◌+◌, ◌≤◌};
ghost use Rattle.sha256_block.specs.Schedule.{next_word};
ghost use Rattle.sha256_block.specs.Step.{round, rounds, rounds_from, add_to};

use sha256_words::{add, big_sigma0, big_sigma1, ch, maj, sigma0, sigma1};

const K: [u32; 64] = [
    0x428a2f98, 0x71374491, 0xb5c0fbcf, 0xe9b5dba5, 0x3956c25b, 0x59f111f1, 0x923f82a4, 0xab1c5ed5,
    0xd807aa98, 0x12835b01, 0x243185be, 0x550c7dc3, 0x72be5d74, 0x80deb1fe, 0x9bdc06a7, 0xc19bf174,
    0xe49b69c1, 0xefbe4786, 0x0fc19dc6, 0x240ca1cc, 0x2de92c6f, 0x4a7484aa, 0x5cb0a9dc, 0x76f988da,
    0x983e5152, 0xa831c66d, 0xb00327c8, 0xbf597fc7, 0xc6e00bf3, 0xd5a79147, 0x06ca6351, 0x14292967,
    0x27b70a85, 0x2e1b2138, 0x4d2c6dfc, 0x53380d13, 0x650a7354, 0x766a0abb, 0x81c2c92e, 0x92722c85,
    0xa2bfe8a1, 0xa81a664b, 0xc24b8b70, 0xc76c51a3, 0xd192e819, 0xd6990624, 0xf40e3585, 0x106aa070,
    0x19a4c116, 0x1e376c08, 0x2748774c, 0x34b0bcb5, 0x391c0cb3, 0x4ed8aa4a, 0x5b9cca4f, 0x682e6ff3,
    0x748f82ee, 0x78a5636f, 0x84c87814, 0x8cc70208, 0x90befffa, 0xa4506ceb, 0xbef9a3f7, 0xc67178f2,
];

// The word of the schedule that follows, from the words 2, 7, 15 and 16 places before it.
#[tactic(auto, unfolding(crate::specs::Schedule::next_word))]
pub fn next_word(back2: u32, back7: u32, back15: u32, back16: u32) -> u32
    ensures { result ≡ next_word back2 back7 back15 back16 }
{
    add(add(add(sigma1(back2), back7), sigma0(back15)), back16)
}

// One round, on the working variables a to h in their order.
fn round(v: [u32; 8], k: u32, w: u32) -> [u32; 8]
    ensures { result ≡ round k w v }
{
    let [a, b, c, d, e, f, g, h] = v;
    let t1 = add(add(add(add(h, big_sigma1(e)), ch(e, f, g)), k), w);
    let t2 = add(big_sigma0(a), maj(a, b, c));
    [add(t1, t2), a, b, c, add(d, t1), e, f, g]
}

// Sixteen rounds, from the round FROM on. They are written out, so that the compiler sees every index and the constants
// become operands of the code: a loop over the 64 rounds took 2,586 ns for 385 bytes where this takes 2,224, with more
// stack and a copy by memcpy.
fn sixteen_rounds<const FROM: usize>(v: [u32; 8], w: [u32; 64]) -> [u32; 8]
    requires { FROM + 16 ≤ 64 }
    ensures { result ≡ rounds_from w FROM 16 v }
{
    let k = K;
    let v1 = round(v, k[FROM], w[FROM]);
    let v2 = round(v1, k[FROM + 1], w[FROM + 1]);
    let v3 = round(v2, k[FROM + 2], w[FROM + 2]);
    let v4 = round(v3, k[FROM + 3], w[FROM + 3]);
    let v5 = round(v4, k[FROM + 4], w[FROM + 4]);
    let v6 = round(v5, k[FROM + 5], w[FROM + 5]);
    let v7 = round(v6, k[FROM + 6], w[FROM + 6]);
    let v8 = round(v7, k[FROM + 7], w[FROM + 7]);
    let v9 = round(v8, k[FROM + 8], w[FROM + 8]);
    let v10 = round(v9, k[FROM + 9], w[FROM + 9]);
    let v11 = round(v10, k[FROM + 10], w[FROM + 10]);
    let v12 = round(v11, k[FROM + 11], w[FROM + 11]);
    let v13 = round(v12, k[FROM + 12], w[FROM + 12]);
    let v14 = round(v13, k[FROM + 13], w[FROM + 13]);
    let v15 = round(v14, k[FROM + 14], w[FROM + 14]);
    round(v15, k[FROM + 15], w[FROM + 15])
}

// All 64 rounds.
#[tactic(auto, using(crate::proofs::RoundLaws::rounds_64))]
fn rounds(h: [u32; 8], w: [u32; 64]) -> [u32; 8]
    ensures { result ≡ rounds w h 64 }
{
    let v16 = sixteen_rounds::<0>(h, w);
    let v32 = sixteen_rounds::<16>(v16, w);
    let v48 = sixteen_rounds::<32>(v32, w);
    sixteen_rounds::<48>(v48, w)
}

// The block step: the next hash value, from the last and the schedule of the block. A `for` and no `from_fn`, whose closure
// would need clauses of its own.
pub fn next_hash(h: [u32; 8], w: [u32; 64]) -> [u32; 8]
    ensures { result ≡ add_to h (rounds w h 64) }
{
    let mut next = rounds(h, w);
    for i in 0..8 {
        next[i] = add(next[i], h[i]);
    }
    next
}
