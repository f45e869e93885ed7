// SHA-256 (FIPS 180-4) of a message that lies in three pieces. The pieces are read where they lie and
// are never copied together; an empty piece counts for nothing. The definitions that the contracts cite
// are in specs/, in the standard's words.
#![tactic(auto)]

mod message;
mod schedule;

ghost use Rattle.std.specs.Prelude.{◌≡◌, ◌++◌, ◌+◌, ◌*◌, ◌≤◌, length};
ghost use Rattle.sha256.specs.Padding.{padding};
ghost use Rattle.sha256.specs.Parsing.{block};
ghost use Rattle.sha256_block.specs.Step.{next_hash};
ghost use Rattle.sha256.specs.Computation.{H₀, hashes, digest, sha256};
ghost use Rattle.sha256.specs.Continued.{sha256_after, Within};

use message::Message;
use schedule::schedule;
use sha256_block::next_hash;

// The digest of a, b and c end to end.
pub fn sha256(a: &[u8], b: &[u8], c: &[u8]) -> [u8; 32]
    requires { length a.now + length b.now + length c.now ≤ 65536 }
    ensures { result ≡ sha256 (a.now ++ b.now ++ c.now) }
{
    sha256_after(initial(), 0, a, b, c)
}

// The hash value that every message starts from.
pub fn initial() -> [u32; 8]
    ensures { result ≡ H₀ }
{
    [
        0x6a09e667, 0xbb67ae85, 0x3c6ef372, 0xa54ff53a, 0x510e527f, 0x9b05688c, 0x1f83d9ab,
        0x5be0cd19,
    ]
}

// The hash value after one more block of the message.
pub fn absorb(h: [u32; 8], bytes: &[u8; 64]) -> [u32; 8]
    ensures { result ≡ next_hash h (block bytes.now 0) }
{
    let s: &[u8] = bytes;
    hash_blocks(s, &s[..0], &s[..0], 64, h, 1)
}

// The digest of a message whose first `done` blocks brought the hash value to h, and whose rest is a, b
// and c end to end.
pub fn sha256_after(h: [u32; 8], done: usize, a: &[u8], b: &[u8], c: &[u8]) -> [u8; 32]
    requires { 64 * done + (length a.now + length b.now + length c.now) ≤ 65536 }
    ensures { result ≡ sha256_after h done (a.now ++ b.now ++ c.now) }
{
    let len = 64 * done + (a.len() + b.len() + c.len());
    let count = Message::new(a, b, c, len).block_count();
    digest(hash_blocks(a, b, c, len, h, count))
}

// The hash value after `count` blocks of the padded message, from h on. The message is put together here, where the
// compiler keeps its parts in registers: a message that was lent took 32 bytes more of stack, and up to 64 in keeper.
// The parameters stand in the order that takes the least stack.
fn hash_blocks(a: &[u8], b: &[u8], c: &[u8], len: usize, h: [u32; 8], count: usize) -> [u32; 8]
    requires within { Within (a.now ++ b.now ++ c.now) len }
    requires count_in_bounds { 64 * count ≤ length (a.now ++ b.now ++ c.now ++ padding len) }
    ensures { result ≡ hashes h (a.now ++ b.now ++ c.now ++ padding len) count }
{
    let message = Message::new(a, b, c, len);
    let mut value = h;
    for i in 0..count {
        let next = next_hash(value, schedule(&message, i));
        value = next;
    }
    value
}

// The eight words of a hash value as 32 bytes, the most significant byte of each first. By index, as in `numbers::copy`.
fn digest(h: [u32; 8]) -> [u8; 32]
    ensures { result ≡ digest h 8 }
{
    let mut d = [0; 32];
    for i in 0..8 {
        d[4 * i..4 * i + 4].copy_from_slice(&h[i].to_be_bytes());
    }
    d
}
