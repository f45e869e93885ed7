// The page and the record in lent bytes: their parts where they lie, and the tests 3, 4 and 5 of a record. What reads
// or writes a record is told its form.
#![tactic(auto)]

mod edition;
mod forms;
mod page;
mod record;
mod testing;

pub use edition::first_state;
pub use page::Page;
pub use record::Record;
pub use testing::test_record;

// How many bytes a hash takes: a summary, an authenticator, a key.
pub const HASH_SIZE: usize = 32;

// How many bytes a page takes.
pub const PAGE_SIZE: usize = 64;

// How many bytes stand before a record's racks: its length and its version.
pub const HEADER_SIZE: usize = 3;

// The forms of a record, by their versions. A form is how many racks a record holds, its length, its version and the
// byte that is hashed before its state; `forms` says them.
#[derive(Clone, Copy, Debug, PartialEq, Eq)]
pub enum Form {
    Version1,
}
