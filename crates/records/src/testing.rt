// The tests 3, 4 and 5 of a record, in their order. The first two bytes of the form's header decide 3, and its third
// decides 4.
ghost use Rattle.std.specs.Prelude.{◌≡◌, IfOk, length};
ghost use Rattle.refusals.specs.Tested.{found};
ghost use Rattle.records.specs.Form.{form_of};
ghost use Rattle.records.specs.Record.{right_size, right_version, right_state};
ghost use Rattle.records.specs.Tests.{tested};

use crate::{Form, Record};
use numbers::same;
use racks::good_state;
use refusals::Refusal;

// The record of a form that the bytes are, if the three tests find nothing.
#[tactic(auto, using(crate::proofs::Headers::right_length), unfolding(crate::specs::Tests::tested))]
pub fn test_record(bytes: &[u8], form: Form) -> Result<Record<'_>, Refusal>
    ensures tests { found result ≡ tested (form_of form) bytes.now }
    ensures same { IfOk result (λ r. (r.bytes.now ≡ bytes.now) × (r.form ≡ form)) }
{
    if !right_size(bytes, form) {
        return Err(Refusal::Record);
    }
    let record = Record { bytes, form };
    if !right_version(&record) {
        return Err(Refusal::Version);
    }
    if !right_state(&record) {
        return Err(Refusal::State);
    }
    Ok(record)
}

// Whether bytes are of a record's size, and their length field the header's.
#[tactic(auto, using(crate::proofs::FormLaws::fits, crate::proofs::Headers::size_wrong, crate::proofs::Headers::size_right), unfolding(numbers::specs::Parts::part))]
fn right_size(bytes: &[u8], form: Form) -> bool
    ensures { result ≡ right_size (form_of form) bytes.now }
{
    if bytes.len() != form.record_size() {
        return false;
    }
    let header = form.header();
    same(&bytes[0..2], &header[0..2])
}

// Whether a record's version is the header's.
#[tactic(auto, using(crate::proofs::FormLaws::fits, crate::proofs::Headers::version_byte))]
fn right_version(r: &Record<'_>) -> bool
    ensures { result ≡ right_version (form_of r.now.form) r.now.bytes.now }
{
    let header = r.form.header();
    r.bytes[2] == header[2]
}

// Whether a record's state keeps the state rule, tested where it lies.
#[tactic(auto, using(crate::proofs::TestCases::state_rule))]
fn right_state(r: &Record<'_>) -> bool
    ensures { result ≡ right_state (form_of r.now.form) r.now.bytes.now }
{
    good_state(r.state())
}
