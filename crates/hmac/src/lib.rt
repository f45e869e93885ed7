// HMAC-SHA-256 (FIPS 198-1) of a message that lies in two pieces. Each pad is worked out as the hash value that its block
// leads to, so that the message is never copied; `Prepared::new` does both ahead, and the key then serves several messages.
#![tactic(auto)]

ghost use Rattle.std.specs.Prelude.{◌≡◌, ◌++◌, ◌+◌, ◌-◌, ◌≤◌, length, replicate};
ghost use Rattle.sha256.specs.Continued.{sha256_after};
ghost use Rattle.hmac.specs.Hmac.{B, ◌⊕◌, hmac};
ghost use Rattle.hmac.specs.Preparation.{after_block, prepared_of, mac_of};

use sha256::{absorb, initial, sha256, sha256_after};

// B: how many bytes a block has; a key that is longer is hashed first.
const BLOCK_SIZE: usize = 64;

// What a key comes to: the hash values after its inner and its outer pad.
#[derive(Clone, Copy)]
pub struct Prepared {
    pub inner: [u32; 8],
    pub outer: [u32; 8],
}

impl Prepared {
    // What a key of at most a block comes to.
    #[tactic(auto, using(crate::proofs::Macs::prepared_short))]
    pub fn new(key: &[u8]) -> Prepared
        requires { length key.now ≤ B }
        ensures { result ≡ prepared_of key.now }
    {
        let inner = after_pad(key, 0x36);
        let outer = after_pad(key, 0x5c);
        Prepared { inner, outer }
    }

    // The MAC of one message of at most 55 bytes, a and b end to end: behind a pad it is one block with its
    // padding.
    pub fn mac(&self, a: &[u8], b: &[u8]) -> [u8; 32]
        requires { length a.now + length b.now ≤ 55 }
        ensures { result ≡ mac_of self.now (a.now ++ b.now) }
    {
        let d = behind(&self.inner, a, b);
        behind(&self.outer, &d, &b[..0])
    }
}

// The hash value after the block that a key and zeros behind it make, XORed with `pad` in every byte. The
// block starts as that pad, which is what the zeros give. By index, as in `numbers::copy`. That a key is short is asked
// here and of its two callers: a type for it would be made in three places, to be used in two.
fn after_pad(key: &[u8], pad: u8) -> [u32; 8]
    requires { length key.now ≤ B }
    ensures { result ≡ after_block ((key.now ++ replicate (B - length key.now) 0) ⊕ replicate B pad) }
{
    let mut block = [pad; 64];
    for (i, x) in key.iter().enumerate() {
        block[i] = x ^ pad;
    }
    absorb(initial(), &block)
}

// The hash of at most 55 bytes, a and b end to end, behind a pad's block, from the hash value after that.
fn behind(h: &[u32; 8], a: &[u8], b: &[u8]) -> [u8; 32]
    requires { length a.now + length b.now ≤ 55 }
    ensures { result ≡ sha256_after h.now 1 (a.now ++ b.now) }
{
    sha256_after(*h, 1, a, b, &b[..0])
}

// The MAC of a and b end to end under a key of at most a block. The outer pad is worked out only when the
// inner hash is done, so that the two never stand on the stack together.
fn hmac_short(key: &[u8], a: &[u8], b: &[u8]) -> [u8; 32]
    requires key_len_bound { length key.now ≤ B }
    requires b_len_bound { length a.now + length b.now ≤ 65472 }
    ensures { result ≡ hmac key.now (a.now ++ b.now) }
{
    let inner = after_pad(key, 0x36);
    let d = sha256_after(inner, 1, a, b, &b[..0]);
    let outer = after_pad(key, 0x5c);
    sha256_after(outer, 1, &d, &b[..0], &b[..0])
}

// The MAC of a and b end to end: a key that is longer than a block is hashed first.
pub fn hmac(key: &[u8], a: &[u8], b: &[u8]) -> [u8; 32]
    requires key_len_bound { length key.now ≤ 256 }
    requires b_len_bound { length a.now + length b.now ≤ 65472 }
    ensures { result ≡ hmac key.now (a.now ++ b.now) }
{
    if BLOCK_SIZE < key.len() {
        let hashed = sha256(key, &key[..0], &key[..0]);
        return hmac_short(&hashed, a, b);
    }
    hmac_short(key, a, b)
}
