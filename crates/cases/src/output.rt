// A line for each case. A line that cannot be written is an error, which ends the run.
use std::io;

pub(crate) fn say(rt: &impl Print, what: &str, number: u32) -> io::Result<()> {
    println!(rt; "{what}: {number}")
}
