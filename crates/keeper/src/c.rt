// The keeper's C functions: a buffer is a pointer and then a length, and each returns one number. What they answer is
// what the calls of the same names answer, by document 01's numbers. The crate `keeper_c` exports them. C has a name for each
// function, and so view's figures are four.
ghost use Rattle.std.specs.Prelude.{◌≡◌};
ghost use Rattle.answers.specs.Answers.{opened, performed, repeated, viewed, resumed, resumed_number};
ghost use Rattle.answers.specs.Edition.{this_edition};
ghost use Rattle.keeper.specs.Numbers.{outcome, perform_outcome};

use crate::{number, open, perform, repeat, view};
use records::Form;
use views::{Which, choose};

#[unsafe(no_mangle)]
pub extern "C" fn keeper_open(page: &[u8], answer: &mut [u8]) -> u32
    ensures { outcome result page.now answer.new ≡ opened this_edition page.now answer.old }
{
    number(open(page, answer))
}

#[unsafe(no_mangle)]
pub extern "C" fn keeper_perform(
    page: &mut [u8],
    record: &[u8],
    request: &[u8],
    answer: &mut [u8],
) -> u32
    ensures { outcome result page.new answer.new ≡ perform_outcome (performed this_edition page.old «record».now request.now answer.old) }
{
    number(perform(page, record, request, answer))
}

#[unsafe(no_mangle)]
pub extern "C" fn keeper_repeat(
    page: &[u8],
    record: &[u8],
    request: &[u8],
    answer: &mut [u8],
) -> u32
    ensures { outcome result page.now answer.new ≡ perform_outcome (repeated this_edition page.now «record».now request.now answer.old) }
{
    number(repeat(page, record, request, answer))
}

#[unsafe(no_mangle)]
pub extern "C" fn keeper_view(page: &[u8], record: &[u8], rack: u32) -> u32
    ensures { result ≡ (viewed this_edition page.now «record».now rack).number }
{
    number(view(page, record, rack))
}

#[unsafe(no_mangle)]
pub extern "C" fn keeper_view_stored(page: &[u8], record: &[u8], rack: u32) -> u32
    ensures { result ≡ (viewed this_edition page.now «record».now rack).figures.stored }
{
    view(page, record, rack).map_or(0, |seen| seen.stored)
}

#[unsafe(no_mangle)]
pub extern "C" fn keeper_view_capacity(page: &[u8], record: &[u8], rack: u32) -> u32
    ensures { result ≡ (viewed this_edition page.now «record».now rack).figures.capacity }
{
    view(page, record, rack).map_or(0, |seen| seen.capacity)
}

#[unsafe(no_mangle)]
pub extern "C" fn keeper_view_percent(page: &[u8], record: &[u8], rack: u32) -> u32
    ensures { result ≡ (viewed this_edition page.now «record».now rack).figures.percent }
{
    view(page, record, rack).map_or(0, |seen| seen.percent)
}

#[unsafe(no_mangle)]
pub extern "C" fn keeper_view_total(page: &[u8], record: &[u8], rack: u32) -> u32
    ensures { result ≡ (viewed this_edition page.now «record».now rack).figures.total }
{
    view(page, record, rack).map_or(0, |seen| seen.total)
}

#[unsafe(no_mangle)]
pub extern "C" fn keeper_resume(page: &[u8], ram: &[u8], disk: &[u8]) -> u32
    ensures { result ≡ resumed_number (resumed this_edition page.now ram.now disk.now) }
{
    match choose(page, ram, disk, Form::Version1) {
        None => 0,
        Some(Which::Ram) => 1,
        Some(Which::Disk) => 2,
    }
}
