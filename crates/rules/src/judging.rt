// The tests of the rules, in the order of their numbers: a function for each kind of request.
#![tactic(auto, unfolding(crate::specs::Rules::ruling, crate::specs::Rules::over_capacity, crate::specs::Rules::over_stored, crate::specs::Rules::over_limit))]

ghost use Rattle.std.specs.Prelude.{◌≡◌, [], ◌∷◌, ◌+◌, ltb};
ghost use Rattle.requests.specs.Range.{Named};
ghost use Rattle.rules.specs.Rules.{ruling};
ghost use Rattle.rules.specs.Ready.{racks_in, state_in};

use super::state::rack_at;
use racks::{FLOW_LIMIT, Rack};
use refusals::Refusal;
use requests::Request;

// What the rules say of a request on the state that lies in the bytes, whatever its figures are.
pub fn judge(state: &[u8], q: Request) -> Result<(), Refusal>
    requires { Named (racks_in state.now) q }
    ensures { result ≡ ruling (state_in state.now) q }
{
    match q {
        Request::Capacity { rack, amount } => on_capacity(rack_at(state, rack), amount),
        Request::Charge { rack, amount } => on_charge(rack_at(state, rack), amount),
        Request::Discharge { rack, amount } => on_discharge(rack_at(state, rack), amount),
        Request::Move {
            rack,
            other,
            amount,
        } => on_move(rack_at(state, rack), rack_at(state, other), amount),
    }
}

// A new capacity for r.
fn on_capacity(r: Rack, amount: u32) -> Result<(), Refusal>
    ensures { result ≡ ruling (r ∷ []) (Request.Capacity 0 amount) }
{
    if amount < r.stored {
        return Err(Refusal::Capacity);
    }
    Ok(())
}

// A charge to r.
fn on_charge(r: Rack, amount: u32) -> Result<(), Refusal>
    ensures { result ≡ ruling (r ∷ []) (Request.Charge 0 amount) }
{
    if passes(r.stored.into(), amount, r.capacity.into()) {
        return Err(Refusal::Capacity);
    }
    if passes(r.taken, amount, FLOW_LIMIT) {
        return Err(Refusal::Limit);
    }
    Ok(())
}

// A discharge from r.
fn on_discharge(r: Rack, amount: u32) -> Result<(), Refusal>
    ensures { result ≡ ruling (r ∷ []) (Request.Discharge 0 amount) }
{
    if r.stored < amount {
        return Err(Refusal::Stored);
    }
    if passes(r.given, amount, FLOW_LIMIT) {
        return Err(Refusal::Limit);
    }
    Ok(())
}

// A move from r to o.
fn on_move(r: Rack, o: Rack, amount: u32) -> Result<(), Refusal>
    ensures { result ≡ ruling (r ∷ o ∷ []) (Request.Move 0 1 amount) }
{
    if passes(o.stored.into(), amount, o.capacity.into()) {
        return Err(Refusal::Capacity);
    }
    if r.stored < amount {
        return Err(Refusal::Stored);
    }
    if passes(o.taken, amount, FLOW_LIMIT) {
        return Err(Refusal::Limit);
    }
    if passes(r.given, amount, FLOW_LIMIT) {
        return Err(Refusal::Limit);
    }
    Ok(())
}

// Whether a figure that rises by an amount passes its limit. No sum is formed, so none can wrap.
fn passes(figure: u64, amount: u32, limit: u64) -> bool
    ensures { result ≡ ltb limit (figure + amount) }
{
    let rise = u64::from(amount);
    if limit < rise {
        return true;
    }
    limit - rise < figure
}
