// The items, each read, its call made, and its line written.
use crate::told::{offer_numbers, resume_number, view_numbers};
use inputs::{Hex, ItemError, read_number, read_part};
use refusals::Refusal;
use std::io::{Read, Write};

// The rooms that buffers are read into: a page, a record or an answer, a request.
const PAGE: usize = 128;

const BOOK: usize = 1024;

const REQUEST: usize = 64;

pub(crate) fn answer_open(input: &mut impl Read, out: &mut impl Write) -> Result<(), ItemError> {
    let mut page = [0u8; PAGE];
    let page = read_part(input, &mut page)?;
    let mut answer = [0u8; BOOK];
    let answer = read_part(input, &mut answer)?;
    let number = keeper::number(keeper::open(page, answer)).to_be_bytes();
    writeln!(out, "o {} {} {}", Hex(&number), Hex(page), Hex(answer))?;
    Ok(())
}

// Perform or repeat, whichever `call` is.
pub(crate) fn answer_offer<F: FnOnce(&mut [u8], &[u8], &[u8], &mut [u8]) -> Result<u32, Refusal>>(
    input: &mut impl Read,
    out: &mut impl Write,
    letter: char,
    call: F,
) -> Result<(), ItemError>
    requires { F.IsAlwaysCallable call }
{
    let mut page = [0u8; PAGE];
    let page = read_part(input, &mut page)?;
    let mut record = [0u8; BOOK];
    let record = read_part(input, &mut record)?;
    let mut request = [0u8; REQUEST];
    let request = read_part(input, &mut request)?;
    let mut answer = [0u8; BOOK];
    let answer = read_part(input, &mut answer)?;
    let [number, stored] = offer_numbers(call(page, record, request, answer)).map(u32::to_be_bytes);
    write!(out, "{letter} {} {} ", Hex(&number), Hex(&stored))?;
    writeln!(
        out,
        "{} {} {} {}",
        Hex(page),
        Hex(record),
        Hex(request),
        Hex(answer)
    )?;
    Ok(())
}

pub(crate) fn answer_view(input: &mut impl Read, out: &mut impl Write) -> Result<(), ItemError> {
    let mut page = [0u8; PAGE];
    let page = read_part(input, &mut page)?;
    let mut record = [0u8; BOOK];
    let record = read_part(input, &mut record)?;
    let rack = read_number(input)?;
    let [number, stored, capacity, percent, total] = view_numbers(keeper::view(
        page, record, rack,
    )).map(u32::to_be_bytes);
    write!(
        out,
        "v {} {} {} {} {} ",
        Hex(&number),
        Hex(&stored),
        Hex(&capacity),
        Hex(&percent),
        Hex(&total)
    )?;
    writeln!(out, "{} {}", Hex(page), Hex(record))?;
    Ok(())
}

pub(crate) fn answer_resume(input: &mut impl Read, out: &mut impl Write) -> Result<(), ItemError> {
    let mut page = [0u8; PAGE];
    let page = read_part(input, &mut page)?;
    let mut ram = [0u8; BOOK];
    let ram = read_part(input, &mut ram)?;
    let mut disk = [0u8; BOOK];
    let disk = read_part(input, &mut disk)?;
    let part = keeper::resume(page, ram, disk);
    let number = resume_number(part, ram).to_be_bytes();
    writeln!(
        out,
        "u {} {} {} {} {}",
        Hex(&number),
        Hex(page),
        Hex(ram),
        Hex(disk),
        Hex(part)
    )?;
    Ok(())
}
