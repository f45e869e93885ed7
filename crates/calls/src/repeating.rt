// Repeat, in the phases of perform, but current is a record whose summary, moved on by the request, gives the page's; so the
// next record is sealed with the page's summary, and the page stays.
ghost use Rattle.std.specs.Prelude.{◌≡◌, ◌≤◌, length};
ghost use Rattle.numbers.specs.Parts.{over};
ghost use Rattle.numbers.specs.Comparing.{same};
ghost use Rattle.rules.specs.Ready.{Ready};
ghost use Rattle.records.specs.Form.{form_of};
ghost use Rattle.records.specs.Page.{page_summary};
ghost use Rattle.records.specs.Record.{record_size, state_bytes};
ghost use Rattle.answers.specs.Answers.{repeated};
ghost use Rattle.answers.specs.Edition.{design};
ghost use Rattle.calls.specs.Told.{told};
ghost use Rattle.calls.specs.Next.{moved_on, next_stored, next_record};

use crate::carrying::{carry, judge_offer, lay_state};
use bindings::{next_summary, prepared, seal};
use hmac::Prepared;
use numbers::same;
use offers::{Offer, test_offer, valid};
use records::{Form, Page};
use refusals::Refusal;

// The next record is laid at the front of the answer, as perform laid it; the page stays.
#[tactic(auto, using(std::proofs::lemmas::Result::err_from_is_err_and, crate::proofs::Answering::ready_to_carry, crate::proofs::Answering::repeat_early))]
pub fn repeat(
    page: &[u8],
    record: &[u8],
    request: &[u8],
    answer: &mut [u8],
    form: Form,
) -> Result<u32, Refusal>
    ensures { told result page.now answer.new ≡ repeated (design (form_of form)) page.now «record».now request.now answer.old }
{
    let (held, offer) = test_offer(page, answer.len(), record, request, form)?;
    let key = prepared(&held);
    if !valid(&key, &offer.record) {
        return Err(Refusal::Authenticator);
    }
    if !leads_to(&held, &offer) {
        return Err(Refusal::Current);
    }
    judge_offer(&offer)?;
    Ok(write_repeated(&held, &offer, answer, &key))
}

// Test 8 of repeat: whether the record's summary, moved on by the request, is the page's.
#[tactic(auto, using(bindings::proofs::Seals::lengths))]
fn leads_to(page: &Page<'_>, offer: &Offer<'_>) -> bool
    ensures { result ≡ same (moved_on (form_of offer.now.«record».form) offer.now.«record».bytes.now offer.now.request.now) (page_summary page.now.bytes.now) }
{
    let own = offer.record.summary();
    let hash = next_summary(own, offer.request);
    let next: &[u8] = &hash;
    let held = page.summary();
    same(next, held)
}

// The writing, past all tests: the next record is laid in the answer with the page's summary, and sealed there.
#[tactic(auto, using(bindings::proofs::Seals::lengths, crate::proofs::Writing::writing))]
fn write_repeated(page: &Page<'_>, offer: &Offer<'_>, answer: &mut [u8], key: &Prepared) -> u32
    requires room { record_size (form_of offer.now.«record».form) ≤ length answer.old }
    requires ready { Ready (state_bytes (form_of offer.now.«record».form) offer.now.«record».bytes.now) offer.now.asks }
    ensures answer_after { answer.new ≡ over 0 (next_record (form_of offer.now.«record».form) key.now offer.now.«record».bytes.now offer.now.asks (page_summary page.now.bytes.now)) answer.old }
    ensures value { result ≡ next_stored (form_of offer.now.«record».form) offer.now.«record».bytes.now offer.now.asks }
{
    let form = offer.record.form;
    lay_state(answer, &offer.record, page.summary());
    let stored = carry(answer, offer.asks, form);
    seal(answer, key, form);
    stored
}
