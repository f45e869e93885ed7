// Perform, in phases, each of which has returned before the next begins: tests 1 to 6, the key, tests 7 and 8 (is it
// current), tests 9 to 11, and the writing: the next record in the answer, sealed there, and then the page.
ghost use Rattle.std.specs.Prelude.{◌≡◌, [], ◌∷◌, ◌≤◌, length};
ghost use Rattle.numbers.specs.Parts.{over, join};
ghost use Rattle.rules.specs.Ready.{Ready};
ghost use Rattle.records.specs.Form.{form_of};
ghost use Rattle.records.specs.Page.{page_size};
ghost use Rattle.records.specs.Record.{record_size, state_bytes, summary, header};
ghost use Rattle.answers.specs.Answers.{performed};
ghost use Rattle.answers.specs.Edition.{design};
ghost use Rattle.calls.specs.Told.{told};
ghost use Rattle.calls.specs.Next.{moved_on, next_stored, next_record};

use crate::carrying::{carry, judge_offer, lay_state};
use bindings::{next_summary, prepared, seal};
use hmac::Prepared;
use numbers::copy;
use offers::{Offer, current, test_offer, valid};
use records::{Form, Record};
use refusals::Refusal;

// The page moves to the next summary, and the next record is laid at the front of the answer.
#[tactic(auto, using(std::proofs::lemmas::Result::err_from_is_err_and, crate::proofs::Answering::ready_to_carry, crate::proofs::Answering::perform_early))]
pub fn perform(
    page: &mut [u8],
    record: &[u8],
    request: &[u8],
    answer: &mut [u8],
    form: Form,
) -> Result<u32, Refusal>
    ensures { told result page.new answer.new ≡ performed (design (form_of form)) page.old «record».now request.now answer.old }
{
    let (held, offer) = test_offer(page, answer.len(), record, request, form)?;
    let key = prepared(&held);
    if !valid(&key, &offer.record) {
        return Err(Refusal::Authenticator);
    }
    if !current(&held, &offer.record) {
        return Err(Refusal::Current);
    }
    judge_offer(&offer)?;
    Ok(write_performed(page, &offer, answer, &key))
}

// The writing, past all tests: the next record is laid in the answer and sealed there, and the page moves to its summary.
#[tactic(auto, using(bindings::proofs::Seals::lengths, crate::proofs::Writing::writing))]
fn write_performed(page: &mut [u8], offer: &Offer<'_>, answer: &mut [u8], key: &Prepared) -> u32
    requires page_len { length page.old ≡ page_size }
    requires room { record_size (form_of offer.now.«record».form) ≤ length answer.old }
    requires ready { Ready (state_bytes (form_of offer.now.«record».form) offer.now.«record».bytes.now) offer.now.asks }
    ensures page_after { page.new ≡ over 0 (moved_on (form_of offer.now.«record».form) offer.now.«record».bytes.now offer.now.request.now) page.old }
    ensures answer_after { answer.new ≡ over 0 (next_record (form_of offer.now.«record».form) key.now offer.now.«record».bytes.now offer.now.asks (moved_on (form_of offer.now.«record».form) offer.now.«record».bytes.now offer.now.request.now)) answer.old }
    ensures value { result ≡ next_stored (form_of offer.now.«record».form) offer.now.«record».bytes.now offer.now.asks }
{
    let form = offer.record.form;
    lay_performed(answer, offer);
    let stored = carry(answer, offer.asks, form);
    seal(answer, key, form);
    let written = &answer[..];
    move_page(page, written, form);
    stored
}

// Lays the header, the record's state and the next summary at the front of the answer.
#[tactic(auto, using(bindings::proofs::Seals::lengths))]
fn lay_performed(answer: &mut [u8], offer: &Offer<'_>)
    requires { record_size (form_of offer.now.«record».form) ≤ length answer.old }
    ensures { answer.new ≡ over 0 (join (header (form_of offer.now.«record».form) ∷ state_bytes (form_of offer.now.«record».form) offer.now.«record».bytes.now ∷ moved_on (form_of offer.now.«record».form) offer.now.«record».bytes.now offer.now.request.now ∷ [])) answer.old }
{
    let own = offer.record.summary();
    let next = next_summary(own, offer.request);
    lay_state(answer, &offer.record, &next);
}

// Moves the page to the summary of the record in the answer. The page is lent by `&mut` here, and so it is no `Page`.
#[tactic(auto, using(bindings::proofs::Seals::lengths, bindings::proofs::Seals::front_summary))]
fn move_page(page: &mut [u8], answer: &[u8], form: Form)
    requires page_len { length page.old ≡ page_size }
    requires room { record_size (form_of form) ≤ length answer.now }
    ensures { page.new ≡ over 0 (summary (form_of form) answer.now) page.old }
{
    let size = form.record_size();
    let written = Record {
        bytes: &answer[..size],
        form,
    };
    copy(page, 0, written.summary());
}
