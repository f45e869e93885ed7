// The archive for C, libkeeper.a with host/keeper.h: a library exports nothing to C, and so each function of `keeper::c` is
// exported here, under its own name and with the same clauses.
#![tactic(auto)]

ghost use Rattle.std.specs.Prelude.{◌≡◌};
ghost use Rattle.answers.specs.Answers.{opened, performed, repeated, viewed, resumed, resumed_number};
ghost use Rattle.answers.specs.Edition.{this_edition};
ghost use Rattle.keeper.specs.Numbers.{outcome, perform_outcome};

use keeper::c;

#[unsafe(no_mangle)]
pub extern "C" fn keeper_open(page: &[u8], answer: &mut [u8]) -> u32
    ensures { outcome result page.now answer.new ≡ opened this_edition page.now answer.old }
{
    c::keeper_open(page, answer)
}

#[unsafe(no_mangle)]
pub extern "C" fn keeper_perform(
    page: &mut [u8],
    record: &[u8],
    request: &[u8],
    answer: &mut [u8],
) -> u32
    ensures { outcome result page.new answer.new ≡ perform_outcome (performed this_edition page.old «record».now request.now answer.old) }
{
    c::keeper_perform(page, record, request, answer)
}

#[unsafe(no_mangle)]
pub extern "C" fn keeper_repeat(
    page: &[u8],
    record: &[u8],
    request: &[u8],
    answer: &mut [u8],
) -> u32
    ensures { outcome result page.now answer.new ≡ perform_outcome (repeated this_edition page.now «record».now request.now answer.old) }
{
    c::keeper_repeat(page, record, request, answer)
}

#[unsafe(no_mangle)]
pub extern "C" fn keeper_view(page: &[u8], record: &[u8], rack: u32) -> u32
    ensures { result ≡ (viewed this_edition page.now «record».now rack).number }
{
    c::keeper_view(page, record, rack)
}

#[unsafe(no_mangle)]
pub extern "C" fn keeper_view_stored(page: &[u8], record: &[u8], rack: u32) -> u32
    ensures { result ≡ (viewed this_edition page.now «record».now rack).figures.stored }
{
    c::keeper_view_stored(page, record, rack)
}

#[unsafe(no_mangle)]
pub extern "C" fn keeper_view_capacity(page: &[u8], record: &[u8], rack: u32) -> u32
    ensures { result ≡ (viewed this_edition page.now «record».now rack).figures.capacity }
{
    c::keeper_view_capacity(page, record, rack)
}

#[unsafe(no_mangle)]
pub extern "C" fn keeper_view_percent(page: &[u8], record: &[u8], rack: u32) -> u32
    ensures { result ≡ (viewed this_edition page.now «record».now rack).figures.percent }
{
    c::keeper_view_percent(page, record, rack)
}

#[unsafe(no_mangle)]
pub extern "C" fn keeper_view_total(page: &[u8], record: &[u8], rack: u32) -> u32
    ensures { result ≡ (viewed this_edition page.now «record».now rack).figures.total }
{
    c::keeper_view_total(page, record, rack)
}

#[unsafe(no_mangle)]
pub extern "C" fn keeper_resume(page: &[u8], ram: &[u8], disk: &[u8]) -> u32
    ensures { result ≡ resumed_number (resumed this_edition page.now ram.now disk.now) }
{
    c::keeper_resume(page, ram, disk)
}
