// The message schedule, FIPS 180-4, section 6.2.2, step 1.
ghost use Rattle.std.specs.Prelude.{◌≡◌, ℕ, ◌+◌, ◌*◌, ◌≤◌, ◌<◌, List, length, take};
ghost use Rattle.sha256.specs.Parsing.{block};
ghost use Rattle.sha256_block.specs.Schedule.{next_word, schedule, W};

use crate::message::Message;
use sha256_block::next_word;

// The schedule of block i of the padded message. It asks for the block itself, so that the 64 words are
// made in one place. Four words a turn keep the newest ones in registers: one word a turn took 2,400 to 2,611 ns
// for 385 bytes, by where its code lay, and four 2,272 to 2,373.
pub(crate) fn schedule(message: &Message<'_>, i: usize) -> [u32; 64]
    requires { 64 * i + 64 ≤ length message.now }
    ensures { result ≡ W (block message.now i) }
{
    let mut w = [0; 64];
    message.block_words(i, &mut w);
    for turn in 0..12 {
        let n = 4 * turn;
        add_word(&mut w, n);
        add_word(&mut w, n + 1);
        add_word(&mut w, n + 2);
        add_word(&mut w, n + 3);
    }
    w
}

// The word n + 16 of a schedule, behind those before it.
fn add_word(w: &mut [u32; 64], n: usize)
    requires { n < 48 }
    ensures { (M : List ℕ) → take (n + 16) w.old ≡ schedule M n → take (n + 1 + 16) w.new ≡ schedule M (n + 1) }
{
    w[n + 16] = next_word(w[n + 14], w[n + 9], w[n + 1], w[n]);
}
