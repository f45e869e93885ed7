// The state rule, tested where the racks lie.
ghost use Rattle.std.specs.Prelude.{◌≡◌, ◌/◌, length};
ghost use Rattle.racks.specs.Layout.{rack_size, state_of};
ghost use Rattle.racks.specs.Rule.{good_rack, good_state};

use crate::{AMOUNT_LIMIT, FLOW_LIMIT, RACK_SIZE, Rack, read_rack};

// Whether r keeps the rule.
#[tactic(auto, unfolding(crate::specs::Rule::good_rack))]
pub fn good_rack(r: Rack) -> bool
    ensures { result ≡ good_rack r }
{
    r.capacity <= AMOUNT_LIMIT
        && r.stored <= r.capacity
        && r.taken <= FLOW_LIMIT
        && r.given <= r.taken
        && u64::from(r.stored) == r.taken - r.given
}

// Whether every rack of the state in the bytes s keeps the rule. Not inlined: what it needs of the stack would lie under the
// hash in its callers.
#[inline(never)]
pub fn good_state(s: &[u8]) -> bool
    ensures { result ≡ good_state (state_of (length s.now / rack_size) s.now) }
{
    s.chunks_exact(RACK_SIZE)
        .all(|rack| good_rack(read_rack(rack, 0)))
}
