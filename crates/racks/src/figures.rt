// The figures that view gives.
ghost use Rattle.std.specs.Prelude.{◌≡◌, true, ◌/◌, ◌≤◌, length};
ghost use Rattle.racks.specs.Layout.{rack_size, state_of};
ghost use Rattle.racks.specs.Rule.{good_rack};
ghost use Rattle.racks.specs.Figures.{percent, total_stored};

use crate::{RACK_SIZE, Rack, read_rack};

// How full r is, in percent; the rule keeps it within 100, so that the cast loses nothing.
#[tactic(auto, using(crate::proofs::Percents::hundred, crate::proofs::StateRule::good_iff), unfolding(crate::specs::Figures::percent))]
pub fn percent(r: Rack) -> u32
    requires { good_rack r ≡ true }
    ensures { result ≡ percent r }
{
    if r.capacity == 0 {
        return 0;
    }
    (100 * u64::from(r.stored) / u64::from(r.capacity)) as u32
}

// The charge over all racks of the state in the bytes s, of which there are few enough that the sum fits. Not
// inlined, for the stack of its callers.
#[inline(never)]
pub fn total_stored(s: &[u8]) -> u64
    requires { length s.now ≤ 65536 }
    ensures { result ≡ total_stored (state_of (length s.now / rack_size) s.now) }
{
    s.chunks_exact(RACK_SIZE)
        .map(|rack| u64::from(read_rack(rack, 0).stored))
        .sum()
}
