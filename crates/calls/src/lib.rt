// Perform and repeat on lent buffers, for every form of record, which the caller says. The tests are made in the order of
// their numbers, the record is read where it lies, the answer is written where it goes, and nothing is written before
// the last test has passed. Both answer what is stored in the request's rack then, for a move in the one that gives. They
// differ in test 8, in what is sealed and in whether the page moves, and share the rest.
#![tactic(auto)]

mod carrying;
mod performing;
mod repeating;

pub use performing::perform;
pub use repeating::repeat;
