// The keeper: the five calls of this edition, for callers in Rattle here and for C in `c`. Each takes every content and
// length of what it is lent; a refusal changes no byte. The form of record is said here: version 1, 16 racks.
#![tactic(auto)]

pub mod c;

ghost use Rattle.std.specs.Prelude.{◌≡◌};
ghost use Rattle.refusals.specs.Tested.{number_told};
ghost use Rattle.answers.specs.Answers.{opened, performed, repeated, viewed, resumed};
ghost use Rattle.answers.specs.Edition.{this_edition};
ghost use Rattle.opens.specs.Told.{told_open};
ghost use Rattle.calls.specs.Told.{told};
ghost use Rattle.views.specs.Told.{told_view};
ghost use Rattle.keeper.specs.Lent.{lent, handed_back};

use records::Form;
use refusals::Refusal;
use views::{Seen, Which, choose};

// Open: the first record, with summary zero and its authenticator; the page stays as it is.
pub fn open(page: &[u8], answer: &mut [u8]) -> Result<(), Refusal>
    ensures { told_open result page.now answer.new ≡ opened this_edition page.now answer.old }
{
    opens::open(page, answer)
}

// Perform: the request is carried out on the record, the next record is written, and the page moves on.
pub fn perform(
    page: &mut [u8],
    record: &[u8],
    request: &[u8],
    answer: &mut [u8],
) -> Result<u32, Refusal>
    ensures { told result page.new answer.new ≡ performed this_edition page.old «record».now request.now answer.old }
{
    calls::perform(page, record, request, answer, Form::Version1)
}

// Repeat: the record that perform wrote for the page's last request is written again; the page stays as it is.
pub fn repeat(page: &[u8], record: &[u8], request: &[u8], answer: &mut [u8]) -> Result<u32, Refusal>
    ensures { told result page.now answer.new ≡ repeated this_edition page.now «record».now request.now answer.old }
{
    calls::repeat(page, record, request, answer, Form::Version1)
}

// View: a rack's stored, capacity and percent, and the total over all racks; nothing is written. Rust has no
// `From` of `u32` for `usize`, and so `rack` is cast.
pub fn view(page: &[u8], record: &[u8], rack: u32) -> Result<Seen, Refusal>
    ensures { told_view result ≡ viewed this_edition page.now «record».now rack }
{
    views::view(page, record, rack as usize, Form::Version1)
}

// Resume: the current one of two records, itself, as a part of the caller's own buffer: the one in RAM if both are, and
// the empty part at the start of RAM's if neither is.
pub fn resume<'a>(page: &[u8], ram: &'a [u8], disk: &'a [u8]) -> &'a [u8]
    ensures { lent result.ref_ptr result.now ≡ handed_back (resumed this_edition page.now ram.now disk.now) (lent ram.entry.ref_ptr ram.now) (lent disk.entry.ref_ptr disk.now) }
{
    match choose(page, ram, disk, Form::Version1) {
        Some(Which::Ram) => ram,
        Some(Which::Disk) => disk,
        None => &ram[..0],
    }
}

// The number of a call's answer: 0, or the refusal's.
pub fn number<T: Drop>(answer: Result<T, Refusal>) -> u32
    ensures { result ≡ number_told answer }
{
    match answer {
        Ok(_) => 0,
        Err(r) => u32::from(r),
    }
}
