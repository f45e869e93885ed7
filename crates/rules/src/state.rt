// The state where it lies: a rack of it is read and written in the caller's bytes.
ghost use Rattle.std.specs.Prelude.{◌≡◌, ◌<◌};
ghost use Rattle.racks.specs.Racks.{rack_at};
ghost use Rattle.rules.specs.Ready.{racks_in, state_in, Holds, Put};

use racks::{RACK_SIZE, Rack, read_rack, write_rack};

// Rack i of the state.
#[tactic(auto, using(crate::proofs::InPlace::rack_read))]
pub(crate) fn rack_at(state: &[u8], i: usize) -> Rack
    requires { i < racks_in state.now }
    ensures { result ≡ rack_at (state_in state.now) i }
{
    read_rack(state, i * RACK_SIZE)
}

// Rack i of the state becomes r; what is stored in it then.
#[tactic(auto, using(crate::proofs::InPlace::written))]
pub(crate) fn put_rack(state: &mut [u8], i: usize, r: Rack) -> u32
    requires { Holds state.old i }
    ensures { Put state.old state.new i r result }
{
    write_rack(state, i * RACK_SIZE, r);
    r.stored
}
