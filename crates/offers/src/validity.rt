// Test 7, whether a record's authenticator is valid, and test 8 of perform, of view and of resume, whether it is current.
ghost use Rattle.std.specs.Prelude.{◌≡◌};
ghost use Rattle.numbers.specs.Comparing.{same};
ghost use Rattle.records.specs.Form.{form_of};
ghost use Rattle.records.specs.Page.{page_summary};
ghost use Rattle.records.specs.Record.{summary, authenticator};
ghost use Rattle.bindings.specs.Sealing.{own_authenticator};

use bindings::authenticator_of;
use hmac::Prepared;
use numbers::same;
use records::{Page, Record};

// Whether a record's authenticator is the one worked out from its own state and summary. Inlined, since its own stack
// would lie under that of the hash.
#[inline(always)]
pub fn valid(key: &Prepared, r: &Record<'_>) -> bool
    ensures { result ≡ same (authenticator (form_of r.now.form) r.now.bytes.now) (own_authenticator (form_of r.now.form) key.now r.now.bytes.now) }
{
    let worked_out = authenticator_of(key, r);
    same(r.authenticator(), &worked_out)
}

// Whether a record's summary is the page's.
pub fn current(page: &Page<'_>, r: &Record<'_>) -> bool
    ensures { result ≡ same (summary (form_of r.now.form) r.now.bytes.now) (page_summary page.now.bytes.now) }
{
    let own = r.summary();
    let held = page.summary();
    same(own, held)
}
