// The padded message of FIPS 180-4, sections 5.1.1 and 5.2.1, block by block, read from three pieces where
// they lie.
ghost use Rattle.std.specs.Prelude.{◌≡◌, ◌++◌, ◌+◌, ◌*◌, ◌%◌, ◌^◌, ◌≤◌, ◌<◌, length, get_or, take};
ghost use Rattle.sha256_words.specs.Words.{word_at};
ghost use Rattle.sha256.specs.Padding.{padding};
ghost use Rattle.sha256.specs.Parsing.{block, blocks};
ghost use Rattle.sha256.specs.Continued.{Within};

use std::marker::Model;

// The end of a message: three pieces, and the length of the whole message, with the blocks that went before
// them. In a contract it is the bytes of the pieces with the padding behind them.
#[derive(Drop)]
pub(crate) struct Message<'a> {
    a: &'a [u8],
    b: &'a [u8],
    c: &'a [u8],
    len: usize,
}

impl<'a> Model for Message<'a> {
    ghost use Rattle.std.specs.Prelude.{ℕ, List, ◌++◌};
    ghost use Rattle.sha256.specs.Padding.{padding};
    ghost use Rattle.sha256.specs.Continued.{Within};

    ghost Value = { List ℕ };

    ghost view = { λ m. m.a.now ++ m.b.now ++ m.c.now ++ padding m.len };

    ghost invariant = { λ m. Within (m.a.now ++ m.b.now ++ m.c.now) m.len };
}

impl<'a> Message<'a> {
    pub(crate) fn new(a: &'a [u8], b: &'a [u8], c: &'a [u8], len: usize) -> Message<'a>
        requires { Within (a.now ++ b.now ++ c.now) len }
        ensures { result ≡ a.now ++ b.now ++ c.now ++ padding len }
    {
        Message { a, b, c, len }
    }

    // How many blocks it has.
    pub(crate) fn block_count(&self) -> usize
        ensures { result ≡ blocks self.now }
    {
        let n = self.a.len() + self.b.len() + self.c.len();
        (n + 72) / 64
    }

    // Block i: its sixteen words, at the front of the 64 of a schedule. By index, as in `numbers::copy`.
    pub(crate) fn block_words(&self, i: usize, w: &mut [u32; 64])
        requires { 64 * i + 64 ≤ length self.now }
        ensures { take 16 w.new ≡ block self.now i }
    {
        // The proof learns here how long the message is at most.
        let _ = &self.len;
        for t in 0..16 {
            w[t] = self.word_at(64 * i + 4 * t);
        }
    }

    // The word at the byte k: most lie inside one piece, or behind the message.
    fn word_at(&self, k: usize) -> u32
        requires k_in_bounds { k + 4 ≤ length self.now }
        requires k_value { k % 4 ≡ 0 }
        ensures { result ≡ word_at self.now k }
    {
        let &Message { a, b, c, len } = self;
        if k + 4 <= a.len() {
            return word(a, k);
        }
        if a.len() <= k {
            let i = k - a.len();
            if i + 4 <= b.len() {
                return word(b, i);
            }
            if b.len() <= i {
                let j = i - b.len();
                if j + 4 <= c.len() {
                    return word(c, j);
                }
                if c.len() < j {
                    return padding_word(len, j - c.len());
                }
            }
        }
        self.mixed_word(k)
    }

    // A word that no piece holds whole, byte by byte. The padding's last eight bytes are no part of it.
    #[tactic(auto, unfolding(sha256_words::specs::Words::word_at))]
    fn mixed_word(&self, k: usize) -> u32
        requires k_bound { k < 2 ^ 32 }
        requires k_in_bounds { k + 12 ≤ length self.now }
        ensures { result ≡ word_at self.now k }
    {
        u32::from_be_bytes([
            self.byte_at(k),
            self.byte_at(k + 1),
            self.byte_at(k + 2),
            self.byte_at(k + 3),
        ])
    }

    // The byte k, before the padding's last eight: of a piece, 0x80 behind them, or zero behind that.
    fn byte_at(&self, k: usize) -> u8
        requires { k + 8 < length self.now }
        ensures { result ≡ get_or self.now k 0 }
    {
        let &Message { a, b, c, .. } = self;
        if k < a.len() {
            return a[k];
        }
        let i = k - a.len();
        if i < b.len() {
            return b[i];
        }
        let j = i - b.len();
        if j < c.len() {
            return c[j];
        }
        if j == c.len() { 128 } else { 0 }
    }
}

// The word that stands in s from the byte `at` on. Not by `numbers::read`, whose clause is of numbers
// and not of the standard's words.
#[tactic(auto, unfolding(sha256_words::specs::Words::word_at))]
fn word(s: &[u8], at: usize) -> u32
    requires { at + 4 ≤ length s.now }
    ensures { result ≡ word_at s.now at }
{
    u32::from_be_bytes([s[at], s[at + 1], s[at + 2], s[at + 3]])
}

// The word i bytes into the padding of a message of len bytes, behind the byte 0x80: zero, but the last
// one is the length in bits (which never needs the 64-bit field's upper word).
fn padding_word(len: usize, i: usize) -> u32
    requires len_bound { len ≤ 65536 }
    requires le_i { (1 ≤ i) × (i + 4 ≤ length (padding len)) }
    requires i_value { (len + i) % 4 ≡ 0 }
    ensures { result ≡ word_at (padding len) i }
{
    if len + i + 4 == (len + 72) / 64 * 64 {
        (8 * len) as u32
    } else {
        0
    }
}
