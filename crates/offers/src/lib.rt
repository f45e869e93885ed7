// What is offered to a call: the tests of it in the order of their numbers, 1 to 6, and tests 7 and 8, each by itself.
// Records and requests are read where they lie, a record as one of a form that the caller says.
#![tactic(auto)]

mod offer;
mod testing;
mod validity;

pub use offer::Offer;
pub use testing::{test_look, test_offer};
pub use validity::{current, valid};
