// What is hashed, document 01: the state hash, the next summary and the binding. Each message is hashed in
// pieces where they lie, behind a byte that says its kind. The authenticator is the MAC of the binding; it seals a record.
#![tactic(auto)]

mod sealing;

ghost use Rattle.std.specs.Prelude.{◌≡◌, [], ◌∷◌, ◌++◌, ◌+◌, ◌≤◌, length};
ghost use Rattle.sha256.specs.Computation.{sha256};
ghost use Rattle.records.specs.Form.{form_of};
ghost use Rattle.bindings.specs.Hashed.{state_hash, next_summary, binding};

use records::Form;
pub use sealing::{authenticator_of, lay, prepared, seal};
use sha256::sha256;

// The hash of a state of a form.
#[tactic(auto, unfolding(crate::specs::Hashed::state_hash))]
pub(crate) fn state_hash(state: &[u8], form: Form) -> [u8; 32]
    requires { length state.now ≤ 65535 }
    ensures { result ≡ state_hash (form_of form) state.now }
{
    tagged(form.tag(), state, &state[..0])
}

// The summary of a history that one more request ends.
#[tactic(auto, unfolding(crate::specs::Hashed::next_summary))]
pub fn next_summary(summary: &[u8], request: &[u8]) -> [u8; 32]
    requires { length summary.now + length request.now ≤ 65535 }
    ensures { result ≡ next_summary summary.now request.now }
{
    tagged(0x02, summary, request)
}

// The binding of a state, by its hash, to a summary.
#[tactic(auto, unfolding(crate::specs::Hashed::binding))]
pub(crate) fn binding(summary: &[u8], hash: &[u8]) -> [u8; 32]
    requires { length summary.now + length hash.now ≤ 65535 }
    ensures { result ≡ binding summary.now hash.now }
{
    tagged(0x03, summary, hash)
}

// The hash of a and b end to end, behind the byte that says their kind. The bound is on both lengths together, a fact
// of no one value.
fn tagged(kind: u8, a: &[u8], b: &[u8]) -> [u8; 32]
    requires { length a.now + length b.now ≤ 65535 }
    ensures { result ≡ sha256 ((kind ∷ []) ++ a.now ++ b.now) }
{
    sha256(&[kind], a, b)
}
