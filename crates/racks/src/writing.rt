// A rack into bytes.
ghost use Rattle.std.specs.Prelude.{◌≡◌, ◌+◌, ◌≤◌, length};
ghost use Rattle.numbers.specs.Parts.{over};
ghost use Rattle.racks.specs.Layout.{rack_size, bytes_of_rack};

use crate::Rack;

// Lays r into the bytes of d from `at` on.
pub fn write_rack(d: &mut [u8], at: usize, r: Rack)
    requires { at + rack_size ≤ length d.old }
    ensures { d.new ≡ over at (bytes_of_rack r) d.old }
{
    numbers::write(d, at, r.capacity);
    numbers::write(d, at + 4, r.stored);
    numbers::write(d, at + 8, r.taken);
    numbers::write(d, at + 16, r.given);
}
