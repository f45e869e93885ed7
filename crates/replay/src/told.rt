// The numbers of an answer: which it is, and the figures, all 0 for a call that was refused.
use refusals::Refusal;
use views::Seen;

// Of a perform or a repeat: the number and what is stored.
pub(crate) fn offer_numbers(told: Result<u32, Refusal>) -> [u32; 2] {
    [keeper::number(told), told.unwrap_or(0)]
}

// The number, what is stored, the capacity, the percent and the total.
pub(crate) fn view_numbers(told: Result<Seen, Refusal>) -> [u32; 5] {
    let number = keeper::number(told);
    match told {
        Ok(seen) => [number, seen.stored, seen.capacity, seen.percent, seen.total],
        Err(_) => [number, 0, 0, 0, 0],
    }
}

// Resume's number, told from the part that it hands back: 0 for neither record, whose part is empty; 1 for the one in RAM;
// 2 for the one on disk, which is never handed back if RAM's has the same bytes.
pub(crate) fn resume_number(part: &[u8], ram: &[u8]) -> u32 {
    if part.is_empty() {
        0
    } else if part == ram {
        1
    } else {
        2
    }
}
