// Copying bytes into a place.
ghost use Rattle.std.specs.Prelude.{◌≡◌, ◌+◌, ◌≤◌, length};
ghost use Rattle.numbers.specs.Parts.{over};

// Lays the bytes of s into d from `at` on. By index, since `copy_from_slice` of any length needs memmove, and the
// archive may need memset alone; and of what a loop over a zip with `iter_mut` wrote a proof knows only the length.
pub fn copy(d: &mut [u8], at: usize, s: &[u8])
    requires { at + length s.now ≤ length d.old }
    ensures { d.new ≡ over at s.now d.old }
{
    for i in 0..s.len() {
        d[at + i] = s[i];
    }
}
