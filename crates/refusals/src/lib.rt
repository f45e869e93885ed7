// The reasons for which a call is refused, in the order in which they are tested.
#![tactic(auto)]

ghost use Rattle.std.specs.Prelude.{◌≡◌};
ghost use Rattle.refusals.specs.Numbers.{number_of};

#[derive(Clone, Copy, Debug, PartialEq, Eq)]
pub enum Refusal {
    // The page is not of its size.
    Page,
    // The answer buffer is too short for the record.
    Answer,
    // The record is not of its size, or its length field is not right.
    Record,
    // The record's version is not known.
    Version,
    // The record's state breaks the state rule.
    State,
    // The request is not well formed, or the rack to be viewed does not exist.
    Request,
    // The authenticator is not valid for the record.
    Authenticator,
    // The record is not current, as the call defines it.
    Current,
    // A charge, or a move into a rack, would pass its capacity, or a new capacity is under what is stored.
    Capacity,
    // A discharge, or a move out of a rack, of more than is stored.
    Stored,
    // Taken in or given out would pass its limit.
    Limit,
    // The total does not fit its figure.
    Total,
    // The page is not fresh.
    Fresh,
}

// A refusal's number is what C and the tests see of it.
impl From<Refusal> for u32 {
    ghost from_gives = { λ r n. n ≡ number_of r };

    fn from(r: Refusal) -> u32 {
        match r {
            Refusal::Page => 1,
            Refusal::Answer => 2,
            Refusal::Record => 3,
            Refusal::Version => 4,
            Refusal::State => 5,
            Refusal::Request => 6,
            Refusal::Authenticator => 7,
            Refusal::Current => 8,
            Refusal::Capacity => 9,
            Refusal::Stored => 10,
            Refusal::Limit => 11,
            Refusal::Total => 12,
            Refusal::Fresh => 13,
        }
    }
}
