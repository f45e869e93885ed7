// View: tests 1 to 8 as they come, then the figures; nothing is written.
ghost use Rattle.std.specs.Prelude.{◌≡◌, true, ◌≤◌, ◌<◌, length};
ghost use Rattle.racks.specs.Rule.{good_state};
ghost use Rattle.rules.specs.Ready.{racks_in, state_in};
ghost use Rattle.records.specs.Form.{form_of};
ghost use Rattle.answers.specs.Answers.{viewed};
ghost use Rattle.answers.specs.Edition.{design};
ghost use Rattle.views.specs.Told.{told_view};
ghost use Rattle.views.specs.Seen.{seen_in};

use crate::Seen;
use bindings::prepared;
use offers::{current, test_look, valid};
use racks::{RACK_SIZE, percent, read_rack, total_stored};
use records::Form;
use refusals::Refusal;

// The figures of a rack and the total, of a record that is current. Tests 7 and 8 stand in each call that
// makes them: a function for both would take the key, the page and the record, and be no shorter.
#[tactic(auto, using(std::proofs::lemmas::Result::err_from_is_err_and, records::proofs::FormLaws::state_fits, crate::proofs::Shown::view_early, crate::proofs::Shown::view_forged, crate::proofs::Shown::view_stale, crate::proofs::Shown::view_current, crate::proofs::Shown::figures_ready))]
pub fn view(page: &[u8], record: &[u8], rack: usize, form: Form) -> Result<Seen, Refusal>
    ensures { told_view result ≡ viewed (design (form_of form)) page.now «record».now rack }
{
    let (held, r) = test_look(page, record, rack, form)?;
    let key = prepared(&held);
    if !valid(&key, &r) {
        return Err(Refusal::Authenticator);
    }
    if !current(&held, &r) {
        return Err(Refusal::Current);
    }
    figures(r.state(), rack)
}

// Test 12, whether the total fits four bytes, and the figures of a state.
#[tactic(auto, using(crate::proofs::Shown::view_over, crate::proofs::Shown::view_seen, crate::proofs::Shown::seen_good))]
fn figures(state: &[u8], rack: usize) -> Result<Seen, Refusal>
    requires state_len_bound { length state.now ≤ 65535 }
    requires state_value { good_state (state_in state.now) ≡ true }
    requires rack_bound { rack < racks_in state.now }
    ensures { told_view result ≡ seen_in (state_in state.now) rack }
{
    let sum = total_stored(state);
    let Ok(total) = u32::try_from(sum) else {
        return Err(Refusal::Total);
    };
    let r = read_rack(state, rack * RACK_SIZE);
    Ok(Seen {
        stored: r.stored,
        capacity: r.capacity,
        percent: percent(r),
        total,
    })
}
