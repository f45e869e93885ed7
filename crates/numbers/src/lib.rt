// Numbers in lent bytes, the most significant byte first; comparing and copying. Nothing is owned and
// nothing is kept: every function works on slices that its caller lends. The definitions that the
// contracts cite are in specs/; the laws that callers cite are in proofs/.
#![tactic(auto)]

mod comparing;
mod copying;
mod number;
mod reading;
mod writing;

pub use comparing::{all_zero, same};
pub use copying::copy;
pub use number::Number;
pub use reading::read;
pub use writing::write;
