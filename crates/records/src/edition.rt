// This edition's first state. Document 01's array stands here, tied to the layout.
ghost use Rattle.std.specs.Prelude.{◌≡◌};
ghost use Rattle.racks.specs.Racks.{first_state};
ghost use Rattle.racks.specs.Layout.{bytes_of_state};
ghost use Rattle.racks.specs.Edition.{racks};

// The bytes of the first state.
#[tactic(auto, using(crate::proofs::ThisEdition::first_state_bytes))]
pub fn first_state() -> [u8; 384]
    ensures { result ≡ bytes_of_state (first_state racks) }
{
    [0; 384]
}
