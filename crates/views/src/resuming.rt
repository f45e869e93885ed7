// Resume: which of two records is current, the one in RAM first.
ghost use Rattle.std.specs.Prelude.{◌≡◌};
ghost use Rattle.records.specs.Form.{form_of};
ghost use Rattle.answers.specs.Judging.{resume_verdict};
ghost use Rattle.answers.specs.Answers.{is_good, resumed};
ghost use Rattle.answers.specs.Edition.{design};
ghost use Rattle.views.specs.Told.{told_which};

use crate::Which;
use bindings::prepared;
use offers::{current, valid};
use records::{Form, Page, test_record};

// Which of the two is current; the disk one is looked at only where RAM's is not.
#[tactic(auto, unfolding(answers::specs::Answers::resumed))]
pub fn choose(page: &[u8], ram: &[u8], disk: &[u8], form: Form) -> Option<Which>
    ensures { told_which result ≡ resumed (design (form_of form)) page.now ram.now disk.now }
{
    if is_current(page, ram, form) {
        return Some(Which::Ram);
    }
    if is_current(page, disk, form) {
        return Some(Which::Disk);
    }
    None
}

// Tests 1, 3, 4, 5 and 7, and the record's summary is the page's.
#[tactic(auto, using(crate::proofs::Chosen::not_valid, crate::proofs::Chosen::is_current), unfolding(answers::specs::Judging::resume_verdict))]
fn is_current(page: &[u8], record: &[u8], form: Form) -> bool
    ensures { result ≡ is_good (resume_verdict (design (form_of form)) page.now «record».now) }
{
    let Some(held) = Page::of(page) else {
        return false;
    };
    let Ok(r) = test_record(record, form) else {
        return false;
    };
    let key = prepared(&held);
    valid(&key, &r) && current(&held, &r)
}
