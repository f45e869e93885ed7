// Carrying a request out: tests 9 to 11, and the next state, laid where it goes.
ghost use Rattle.std.specs.Prelude.{◌≡◌, [], ◌∷◌, ◌≤◌, length};
ghost use Rattle.numbers.specs.Parts.{over, join};
ghost use Rattle.rules.specs.Rules.{ruling};
ghost use Rattle.rules.specs.Ready.{Ready};
ghost use Rattle.records.specs.Form.{form_of};
ghost use Rattle.records.specs.Page.{hash_size};
ghost use Rattle.records.specs.Record.{record_size, state_bytes, state, header};
ghost use Rattle.calls.specs.Next.{next_bytes, next_stored};

use bindings::lay;
use offers::Offer;
use records::{Form, HEADER_SIZE, Record};
use refusals::Refusal;
use requests::Request;
use rules::{carry_out, judge};

// The charge rules' ruling, tests 9 to 11, on the record's state.
#[tactic(auto, using(crate::proofs::CarryingOut::named, crate::proofs::CarryingOut::judged))]
pub(crate) fn judge_offer(offer: &Offer<'_>) -> Result<(), Refusal>
    ensures { result ≡ ruling (state (form_of offer.now.«record».form) offer.now.«record».bytes.now) offer.now.asks }
{
    judge(offer.record.state(), offer.asks)
}

// Lays the form's header, a record's state and a summary at the front of the answer.
#[tactic(auto, using(bindings::proofs::Seals::lengths))]
pub(crate) fn lay_state(answer: &mut [u8], r: &Record<'_>, summary: &[u8])
    requires room { record_size (form_of r.now.form) ≤ length answer.old }
    requires summary_len { length summary.now ≡ hash_size }
    ensures { answer.new ≡ over 0 (join (header (form_of r.now.form) ∷ state_bytes (form_of r.now.form) r.now.bytes.now ∷ summary.now ∷ [])) answer.old }
{
    let header = r.form.header();
    lay(answer, &header, r.state(), summary);
}

// Carries a request out on the state that lies in the answer; what is stored in its rack then. That nothing bars it is
// asked: a type that said so would be of the offer, and each promise would have to lead back from it to the offer.
#[tactic(auto, using(crate::proofs::Writing::carrying))]
pub(crate) fn carry(answer: &mut [u8], asks: Request, form: Form) -> u32
    requires room { record_size (form_of form) ≤ length answer.old }
    requires ready { Ready (state_bytes (form_of form) answer.old) asks }
    ensures answer_after { answer.new ≡ over 3 (next_bytes (form_of form) answer.old asks) answer.old }
    ensures value { result ≡ next_stored (form_of form) answer.old asks }
{
    let end = form.state_end();
    carry_out(&mut answer[HEADER_SIZE..end], asks)
}
