// Racks where they lie in lent bytes: read, written, held to the state rule, and shown. Nothing is copied
// and nothing is kept. How many racks there are is said by the length of the bytes alone. The definitions
// that the contracts cite are in specs/; the laws that callers cite are in proofs/.
#![tactic(auto)]

mod figures;
mod reading;
mod rule;
mod writing;

pub use figures::{percent, total_stored};
pub use reading::read_rack;
pub use rule::{good_rack, good_state};
pub use writing::write_rack;

// How many racks a book has, in this edition.
pub const RACKS: usize = 16;

// How many bytes a rack takes.
pub const RACK_SIZE: usize = 24;

// The most that a capacity or an amount may be.
pub const AMOUNT_LIMIT: u32 = 100_000_000;

// The most that a rack may have taken in, or given out.
pub const FLOW_LIMIT: u64 = 1_000_000_000_000_000;

// A rack is its four figures, in ampere-seconds: capacity, stored, taken in, given out.
#[derive(Clone, Copy, Debug, PartialEq, Eq)]
pub struct Rack {
    pub capacity: u32,
    pub stored: u32,
    pub taken: u64,
    pub given: u64,
}
