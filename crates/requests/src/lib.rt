// Requests: the ten bytes that the site computer sends, and what they ask. The bytes are read where they
// lie; every content and every length gets its answer. How many racks there are is the caller's to say.
#![tactic(auto)]

mod form;
mod kinds;

ghost use Rattle.std.specs.Prelude.{◌≡◌};
ghost use Rattle.requests.specs.Requests.{read_request};

use form::Fields;
use kinds::Kind;

// A request, decoded: what is asked of which rack. Every form of a request's bytes gives one of these.
#[derive(Clone, Copy, Debug, PartialEq, Eq)]
pub enum Request {
    Capacity {
        rack: usize,
        amount: u32,
    },
    Charge {
        rack: usize,
        amount: u32,
    },
    Discharge {
        rack: usize,
        amount: u32,
    },
    Move {
        rack: usize,
        other: usize,
        amount: u32,
    },
}

// The request that the bytes of s stand for, among so many racks, if they are well formed.
#[tactic(auto, unfolding(crate::specs::Requests::read_request, crate::specs::Formed::well_formed))]
pub fn read_request(s: &[u8], racks: usize) -> Option<Request>
    ensures { result ≡ read_request racks s.now }
{
    let fields = Fields::of(s)?;
    if racks <= fields.rack() {
        return None;
    }
    if !fields.right_other(racks) {
        return None;
    }
    if !fields.right_amount() {
        return None;
    }
    Some(fields.request())
}
