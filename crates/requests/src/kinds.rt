// The kinds of a request, and their numbers.
ghost use Rattle.requests.specs.Kinds.{Numbered};

// What a request asks for, told by its byte.
#[derive(Clone, Copy, Debug, PartialEq, Eq)]
pub(crate) enum Kind {
    Capacity,
    Charge,
    Discharge,
    Move,
}

// A number that no kind has.
#[derive(Clone, Copy, Debug, PartialEq, Eq)]
pub(crate) struct UnknownKind;

impl TryFrom<u8> for Kind {
    type Error = UnknownKind;

    ghost try_from_gives = { Numbered };

    fn try_from(number: u8) -> Result<Kind, UnknownKind> {
        match number {
            1 => Ok(Kind::Capacity),
            2 => Ok(Kind::Charge),
            3 => Ok(Kind::Discharge),
            4 => Ok(Kind::Move),
            _ => Err(UnknownKind),
        }
    }
}
