// The charge rules: whether a request can be carried out on a state, and what it changes. The state lies in
// the caller's bytes and is never copied; only the racks that a request names are read and written.
#![tactic(auto)]

mod carrying;
mod judging;
mod state;

pub use carrying::carry_out;
pub use judging::judge;
