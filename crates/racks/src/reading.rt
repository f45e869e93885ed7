// A rack out of bytes.
ghost use Rattle.std.specs.Prelude.{◌≡◌, ◌+◌, ◌≤◌, length};
ghost use Rattle.numbers.specs.Parts.{part};
ghost use Rattle.racks.specs.Layout.{rack_size, rack_of};

use crate::Rack;

// The rack in the bytes of s from `at` on.
#[tactic(auto, using(crate::proofs::RackBytes::fields))]
pub fn read_rack(s: &[u8], at: usize) -> Rack
    requires { at + rack_size ≤ length s.now }
    ensures { result ≡ rack_of (part at rack_size s.now) }
{
    Rack {
        capacity: numbers::read::<u32>(s, at),
        stored: numbers::read::<u32>(s, at + 4),
        taken: numbers::read::<u64>(s, at + 8),
        given: numbers::read::<u64>(s, at + 16),
    }
}
