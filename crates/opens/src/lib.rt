// Open: the first record of this edition, with summary zero and its authenticator; the page stays as it is.
#![tactic(auto)]

ghost use Rattle.std.specs.Prelude.{◌≡◌, [], ◌∷◌, ◌≤◌, length};
ghost use Rattle.numbers.specs.Parts.{over, join};
ghost use Rattle.racks.specs.Racks.{first_state};
ghost use Rattle.racks.specs.Layout.{bytes_of_state};
ghost use Rattle.racks.specs.Edition.{racks};
ghost use Rattle.records.specs.Form.{version1};
ghost use Rattle.records.specs.Page.{hash_size, page_summary};
ghost use Rattle.records.specs.Record.{record_size, header};
ghost use Rattle.answers.specs.Hashing.{bound_record};
ghost use Rattle.answers.specs.Answers.{opened};
ghost use Rattle.answers.specs.Edition.{this_edition};
ghost use Rattle.opens.specs.Told.{told_open};

use bindings::{lay, prepared, seal};
use numbers::all_zero;
use records::{Form, Page, first_state};
use refusals::Refusal;

// Lays the first record at the front of the answer, if the page is fresh.
#[tactic(auto, using(crate::proofs::Cases::open_13, crate::proofs::Cases::open_0), unfolding(answers::specs::Answers::opened, answers::specs::Answers::open_tests))]
pub fn open(page: &[u8], answer: &mut [u8]) -> Result<(), Refusal>
    ensures { told_open result page.now answer.new ≡ opened this_edition page.now answer.old }
{
    let held = Page::of(page).ok_or(Refusal::Page)?;
    if answer.len() < Form::Version1.record_size() {
        return Err(Refusal::Answer);
    }
    if !all_zero(held.summary()) {
        return Err(Refusal::Fresh);
    }
    write_first(&held, answer);
    Ok(())
}

// Lays the first record at the front of the answer, bound to the page's summary.
#[tactic(auto, using(bindings::proofs::Seals::lengths, crate::proofs::Cases::first_sealed))]
fn write_first(page: &Page<'_>, answer: &mut [u8])
    requires { record_size version1 ≤ length answer.old }
    ensures { answer.new ≡ over 0 (bound_record this_edition page.now.bytes.now (page_summary page.now.bytes.now) (bytes_of_state (first_state racks))) answer.old }
{
    lay_first(answer, page.summary());
    let key = prepared(page);
    seal(answer, &key, Form::Version1);
}

// Lays the header, the first state and a summary at the front of the answer. The array of the first state is gone when this
// returns, and its copy in the answer is what is hashed.
#[inline(never)]
fn lay_first(answer: &mut [u8], summary: &[u8])
    requires version1_in_bounds { record_size version1 ≤ length answer.old }
    requires summary_len { length summary.now ≡ hash_size }
    ensures { answer.new ≡ over 0 (join (header version1 ∷ bytes_of_state (first_state racks) ∷ summary.now ∷ [])) answer.old }
{
    let header = Form::Version1.header();
    let state = first_state();
    lay(answer, &header, &state, summary);
}
