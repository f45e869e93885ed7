// View and resume on lent buffers, for every form of record, which the caller says. Nothing is written.
#![tactic(auto)]

mod resuming;
mod viewing;

pub use resuming::choose;
pub use viewing::view;

// What view answers of a rack: the first three figures are its own, and the total is over all racks.
#[derive(Clone, Copy, Debug, PartialEq, Eq)]
pub struct Seen {
    pub stored: u32,
    pub capacity: u32,
    pub percent: u32,
    pub total: u32,
}

// Which of its two records resume hands back.
#[derive(Clone, Copy, Debug, PartialEq, Eq)]
pub enum Which {
    Ram,
    Disk,
}
