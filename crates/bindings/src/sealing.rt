// The authenticator of a record, worked out from the bytes in which its state and its summary lie, and the sealing of a
// record with it. The key is lent as what it comes to.
ghost use Rattle.std.specs.Prelude.{◌≡◌, [], ◌∷◌, ◌+◌, ◌≤◌, length};
ghost use Rattle.numbers.specs.Parts.{over, join};
ghost use Rattle.records.specs.Form.{form_of};
ghost use Rattle.records.specs.Page.{page_key};
ghost use Rattle.records.specs.Record.{record_size, state_bytes, summary};
ghost use Rattle.hmac.specs.Preparation.{prepared_of};
ghost use Rattle.bindings.specs.Hashed.{binding_of};
ghost use Rattle.bindings.specs.Sealing.{own_authenticator, sealed};

use crate::{binding, state_hash};
use hmac::Prepared;
use numbers::copy;
use records::{Form, HASH_SIZE, Page, Record};

// What a page's key comes to.
#[tactic(auto, using(crate::proofs::Seals::key_short))]
pub fn prepared(page: &Page<'_>) -> Prepared
    ensures { result ≡ prepared_of (page_key page.now.bytes.now) }
{
    Prepared::new(page.key())
}

// The binding of a record's own state to its own summary. The state's hash is gone from the stack when this returns.
#[tactic(auto, using(records::proofs::FormLaws::state_fits, crate::proofs::Seals::lengths), unfolding(crate::specs::Hashed::binding_of))]
fn binding_in(r: &Record<'_>) -> [u8; 32]
    ensures { result ≡ binding_of (form_of r.now.form) (summary (form_of r.now.form) r.now.bytes.now) (state_bytes (form_of r.now.form) r.now.bytes.now) }
{
    let summary = r.summary();
    let state = r.state();
    let hash = state_hash(state, r.form);
    binding(summary, &hash)
}

// The authenticator that a record's own state and summary call for. Nothing stands before the binding.
pub fn authenticator_of(key: &Prepared, r: &Record<'_>) -> [u8; 32]
    ensures { result ≡ own_authenticator (form_of r.now.form) key.now r.now.bytes.now }
{
    let bound = binding_in(r);
    key.mac(&r.bytes[..0], &bound)
}

// Lays a header, a state and a summary end to end at the front of an answer.
#[tactic(auto, using(crate::proofs::Seals::laid_3))]
pub fn lay(answer: &mut [u8], header: &[u8], state: &[u8], summary: &[u8])
    requires { length header.now + (length state.now + length summary.now) ≤ length answer.old }
    ensures { answer.new ≡ over 0 (join (header.now ∷ state.now ∷ summary.now ∷ [])) answer.old }
{
    copy(answer, 0, header);
    let at_state = header.len();
    copy(answer, at_state, state);
    let at_summary = at_state + state.len();
    copy(answer, at_summary, summary);
}

// Lays the authenticator of the state and the summary that lie in an answer behind them. That the answer has room is
// asked, here and wherever one is written: a type around the lent `&mut` would be taken apart again in each call.
#[tactic(auto, using(crate::proofs::Seals::seals))]
pub fn seal(answer: &mut [u8], key: &Prepared, form: Form)
    requires { record_size (form_of form) ≤ length answer.old }
    ensures { answer.new ≡ sealed (form_of form) key.now answer.old }
{
    let size = form.record_size();
    let laid = Record {
        bytes: &answer[..size],
        form,
    };
    let authenticator = authenticator_of(key, &laid);
    copy(answer, size - HASH_SIZE, &authenticator);
}
