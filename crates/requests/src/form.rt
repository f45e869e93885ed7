// When a request is well formed: document 01's sentence, a function for each of its clauses.
ghost use Rattle.std.specs.Prelude.{◌≡◌, ◌<◌, length};
ghost use Rattle.numbers.specs.Numbers.{be};
ghost use Rattle.numbers.specs.Parts.{part};
ghost use Rattle.requests.specs.Layout.{request_size, kind};
ghost use Rattle.requests.specs.Kinds.{number_of_kind};
ghost use Rattle.requests.specs.Formed.{right_form};

use crate::{Kind, Request};
use racks::AMOUNT_LIMIT;

// How many bytes a request takes, how many follow its length field, and its version.
const SIZE: usize = 10;

const LENGTH: u16 = 8;

const VERSION: u8 = 1;

// The bytes of a request whose form is right, and the kind that they name.
#[derive(Clone, Copy)]
pub(crate) struct Fields<'a> {
    bytes: &'a [u8],
    asks: Kind,
    ghost sized: { length bytes.now ≡ request_size },
    ghost of_kind: { number_of_kind asks ≡ kind bytes.now },
}

impl<'a> Fields<'a> {
    ghost use Rattle.std.specs.Prelude.{◌↔◌, ◌≤◌, true, IfSome, IsSome};
    ghost use Rattle.requests.specs.Layout.{rack, other, amount};
    ghost use Rattle.requests.specs.Formed.{right_other, right_amount};
    ghost use Rattle.requests.specs.Requests.{request_of};

    // The fields of bytes of the right form and of a known kind.
    #[tactic(auto, using(crate::proofs::Formed::tested_size))]
    pub(crate) fn of(bytes: &'a [u8]) -> Option<Fields<'a>>
        ensures formed { IsSome result ↔ ((right_form bytes.now ≡ true) × (1 ≤ kind bytes.now) × (kind bytes.now ≤ 4)) }
        ensures same { IfSome result (λ fields. fields.bytes.now ≡ bytes.now) }
    {
        if !right_form(bytes) {
            return None;
        }
        let asks = Kind::try_from(byte(bytes, 3)).ok()?;
        Some(Fields { bytes, asks })
    }

    pub(crate) fn rack(&self) -> usize
        ensures { result ≡ rack self.now.bytes.now }
    {
        usize::from(byte(self.bytes, 4))
    }

    fn other(&self) -> usize
        ensures { result ≡ other self.now.bytes.now }
    {
        usize::from(byte(self.bytes, 5))
    }

    fn amount(&self) -> u32
        ensures { result ≡ amount self.now.bytes.now }
    {
        numbers::read::<u32>(self.bytes, 6)
    }

    // Other is 0, and for a move another rack.
    #[tactic(auto, unfolding(crate::specs::Formed::right_other))]
    pub(crate) fn right_other(&self, racks: usize) -> bool
        ensures { result ≡ right_other racks self.now.bytes.now }
    {
        let other = self.other();
        match self.asks {
            Kind::Move => other < racks && other != self.rack(),
            Kind::Capacity | Kind::Charge | Kind::Discharge => other == 0,
        }
    }

    // Amount is within its limit, and 0 only for a capacity.
    #[tactic(auto, unfolding(crate::specs::Formed::right_amount))]
    pub(crate) fn right_amount(&self) -> bool
        ensures { result ≡ right_amount self.now.bytes.now }
    {
        let amount = self.amount();
        if AMOUNT_LIMIT < amount {
            return false;
        }
        match self.asks {
            Kind::Capacity => true,
            Kind::Charge | Kind::Discharge | Kind::Move => 0 < amount,
        }
    }

    // What they ask.
    #[tactic(auto, unfolding(crate::specs::Requests::request_of, crate::specs::Requests::request_by))]
    pub(crate) fn request(&self) -> Request
        ensures { result ≡ request_of self.now.bytes.now }
    {
        let rack = self.rack();
        let other = self.other();
        let amount = self.amount();
        match self.asks {
            Kind::Capacity => Request::Capacity { rack, amount },
            Kind::Charge => Request::Charge { rack, amount },
            Kind::Discharge => Request::Discharge { rack, amount },
            Kind::Move => Request::Move {
                rack,
                other,
                amount,
            },
        }
    }
}

// Length, version and size.
#[tactic(auto, unfolding(crate::specs::Formed::right_form))]
fn right_form(s: &[u8]) -> bool
    ensures { result ≡ right_form s.now }
{
    if s.len() != SIZE {
        return false;
    }
    if numbers::read::<u16>(s, 0) != LENGTH {
        return false;
    }
    byte(s, 2) == VERSION
}

// The byte of s at `at`, as a number of one byte.
#[tactic(auto, using(crate::proofs::Bytes::one_byte))]
fn byte(s: &[u8], at: usize) -> u8
    requires { at < length s.now }
    ensures { result ≡ be (part at 1 s.now) }
{
    s[at]
}
