// The cases of document 01 beside its table K1 to K14, one by one: each line says what is offered and what the keeper
// answers. The committed output has what document 01 says that each should give.
#![tactic(auto)]

mod book;
mod output;

use book::{Book, request};
use output::say;
use refusals::Refusal;
use std::io;

fn main(rt: HostRuntime) -> io::Result<()> {
    match books() {
        Ok((old, book)) => try_all(&rt, &old, &book),
        Err(refusal) => say(&rt, "no book to try", u32::from(refusal)),
    }
}

// The book: rack 5 has room for 100, of which 60 are stored; the old one is that of before the charge.
fn books() -> Result<(Book, Book), Refusal> {
    let old = Book::opened()?.after(&request(1, 5, 0, 100))?;
    let book = old.after(&request(2, 5, 0, 60))?;
    Ok((old, book))
}

fn try_all(rt: &impl Print, old: &Book, book: &Book) -> io::Result<()> {
    try_sizes(rt, book)?;
    try_forms(rt, book)?;
    try_racks(rt, book)?;
    try_answers(rt, book)?;
    try_old(rt, &book.with_record_of(old))?;
    try_rules(rt, book)
}

// A good request, and the same with a byte too few and a byte too many.
fn try_sizes(rt: &impl Print, book: &Book) -> io::Result<()> {
    let good = [0, 8, 1, 3, 5, 0, 0, 0, 0, 1, 0];
    say(rt, "a request of 10 bytes", book.number_for(&good[..10]))?;
    say(rt, "a request of 9 bytes", book.number_for(&good[..9]))?;
    say(rt, "a request of 11 bytes", book.number_for(&good))
}

// Requests that are not well formed.
fn try_forms(rt: &impl Print, book: &Book) -> io::Result<()> {
    say(
        rt,
        "a move from rack 5 to rack 5",
        book.number_for(&request(4, 5, 5, 1)),
    )?;
    say(rt, "a charge of 0", book.number_for(&request(2, 5, 0, 0)))?;
    say(rt, "rack 16", book.number_for(&request(2, 16, 0, 1)))
}

// The first rack too many, and the last one.
fn try_racks(rt: &impl Print, book: &Book) -> io::Result<()> {
    say(rt, "rack 16, viewed", book.view_number(16))?;
    say(rt, "rack 15, viewed", book.view_number(15))
}

// An answer buffer with a byte too few, and one with a byte too many.
fn try_answers(rt: &impl Print, book: &Book) -> io::Result<()> {
    let good = request(3, 5, 0, 1);
    let mut short = [238; 450];
    say(
        rt,
        "an answer buffer of 450 bytes",
        book.number_in(&good, &mut short),
    )?;
    let mut long = [238; 452];
    say(
        rt,
        "an answer buffer of 452 bytes",
        book.number_in(&good, &mut long),
    )?;
    say(rt, "its last byte, which was 238", u32::from(long[451]))
}

// The record of before the page's last request.
fn try_old(rt: &impl Print, book: &Book) -> io::Result<()> {
    say(
        rt,
        "an old record offered to perform",
        book.number_for(&request(3, 5, 0, 1)),
    )
}

// Rack 6 has no room, and rack 5 has 60 to give.
fn try_rules(rt: &impl Print, book: &Book) -> io::Result<()> {
    say(
        rt,
        "a move that breaks 9 and 10",
        book.number_for(&request(4, 5, 6, 70)),
    )?;
    say(
        rt,
        "a move that breaks 9 alone",
        book.number_for(&request(4, 5, 6, 60)),
    )?;
    say(
        rt,
        "a discharge that breaks 10 alone",
        book.number_for(&request(3, 5, 0, 61)),
    )
}
