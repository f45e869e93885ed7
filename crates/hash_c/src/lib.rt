// SHA-256 and HMAC-SHA-256 as functions that C calls, for measuring. A slice is passed as a pointer and a
// length. Each function writes the 32 bytes of its answer to the front of out and returns 0; where a bound is
// not met, or out has fewer than 32 bytes, it writes nothing and returns 1. The buffers do not overlap.
#![tactic(auto)]

ghost use Rattle.std.specs.Prelude.{◌≡◌, ◌+◌, leb};
ghost use Rattle.hash_c.specs.Outcome.{Outcome, hash_outcome, mac_outcome};

use hmac::hmac;
use numbers::copy;
use sha256::sha256;

// The digest of a, b and c end to end.
#[unsafe(no_mangle)]
pub extern "C" fn hash_sha256(a: &[u8], b: &[u8], c: &[u8], out: &mut [u8]) -> u32
    ensures { ◌≡◌ {A = Outcome} (record { code = result; out = out.new }) (hash_outcome a.now b.now c.now out.old) }
{
    if !within(a.len(), b.len(), c.len(), 65536) {
        return 1;
    }
    if out.len() < 32 {
        return 1;
    }
    let answer = sha256(a, b, c);
    copy(out, 0, &answer);
    0
}

// The MAC of a and b end to end under the key.
#[unsafe(no_mangle)]
pub extern "C" fn hash_hmac(key: &[u8], a: &[u8], b: &[u8], out: &mut [u8]) -> u32
    ensures { ◌≡◌ {A = Outcome} (record { code = result; out = out.new }) (mac_outcome key.now a.now b.now out.old) }
{
    if 256 < key.len() {
        return 1;
    }
    if !within(a.len(), b.len(), 0, 65472) {
        return 1;
    }
    if out.len() < 32 {
        return 1;
    }
    let answer = hmac(key, a, b);
    copy(out, 0, &answer);
    0
}

// Whether three lengths together are at most `most`; their sum itself might not fit.
fn within(a: usize, b: usize, c: usize, most: usize) -> bool
    ensures { result ≡ leb (a + b + c) most }
{
    if most < a {
        return false;
    }
    if most - a < b {
        return false;
    }
    c <= most - a - b
}
