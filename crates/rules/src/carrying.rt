// What a request changes: a function for each kind. No test is made here; what the rules allow is required.
ghost use Rattle.std.specs.Prelude.{◌≡◌};
ghost use Rattle.racks.specs.Racks.{rack_at};
ghost use Rattle.racks.specs.Layout.{bytes_of_state};
ghost use Rattle.requests.specs.Requests.{rack_of_request};
ghost use Rattle.rules.specs.Rules.{with_capacity, charged_by, discharged_by, carry_out};
ghost use Rattle.rules.specs.Ready.{TakesIn, GivesOut, state_in, Holds, Put, Ready};

use super::state::{put_rack, rack_at};
use racks::Rack;
use requests::Request;

// Carries a request out that nothing bars; what is stored in its rack then, for a move in the one that gives.
#[tactic(auto, using(crate::proofs::InPlace::carries))]
pub fn carry_out(state: &mut [u8], q: Request) -> u32
    requires { Ready state.old q }
    ensures state_after { state.new ≡ bytes_of_state (carry_out (state_in state.old) q) }
    ensures value { result ≡ (rack_at (carry_out (state_in state.old) q) (rack_of_request q)).stored }
{
    match q {
        Request::Capacity { rack, amount } => set_capacity(state, rack, amount),
        Request::Charge { rack, amount } => charge(state, rack, amount),
        Request::Discharge { rack, amount } => discharge(state, rack, amount),
        Request::Move {
            rack,
            other,
            amount,
        } => {
            let left = discharge(state, rack, amount);
            charge(state, other, amount);
            left
        }
    }
}

// The rack's capacity becomes amount. `Holds` is asked by name: a type would have to hold the lent `&mut` of the state.
fn set_capacity(state: &mut [u8], rack: usize, amount: u32) -> u32
    requires { Holds state.old rack }
    ensures { Put state.old state.new rack (with_capacity amount (rack_at (state_in state.old) rack)) result }
{
    let r = rack_at(state, rack);
    put_rack(
        state,
        rack,
        Rack {
            capacity: amount,
            ..r
        },
    )
}

// Stored and taken in rise by amount.
fn charge(state: &mut [u8], rack: usize, amount: u32) -> u32
    requires holds { Holds state.old rack }
    requires takes_in { TakesIn amount (rack_at (state_in state.old) rack) }
    ensures { Put state.old state.new rack (charged_by amount (rack_at (state_in state.old) rack)) result }
{
    let r = rack_at(state, rack);
    put_rack(
        state,
        rack,
        Rack {
            stored: r.stored + amount,
            taken: r.taken + u64::from(amount),
            ..r
        },
    )
}

// Stored falls and given out rises by amount.
fn discharge(state: &mut [u8], rack: usize, amount: u32) -> u32
    requires holds { Holds state.old rack }
    requires gives_out { GivesOut amount (rack_at (state_in state.old) rack) }
    ensures { Put state.old state.new rack (discharged_by amount (rack_at (state_in state.old) rack)) result }
{
    let r = rack_at(state, rack);
    put_rack(
        state,
        rack,
        Rack {
            stored: r.stored - amount,
            given: r.given + u64::from(amount),
            ..r
        },
    )
}
