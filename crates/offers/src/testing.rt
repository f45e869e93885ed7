// The tests before the authenticator, 1 to 6.
ghost use Rattle.std.specs.Prelude.{◌≡◌, IfOk, length};
ghost use Rattle.refusals.specs.Tested.{passing, found};
ghost use Rattle.requests.specs.Requests.{request_of};
ghost use Rattle.records.specs.Form.{form_of};
ghost use Rattle.offers.specs.Offers.{offered_at, offer_by, looked_at};

use crate::Offer;
use records::{Form, Page, Record, test_record};
use refusals::Refusal;
use requests::read_request;

// Tests 1 to 6 of perform and of repeat: of the sizes of page and answer, of the record and of the request. Inlined, so that
// what it hands over is made where it stays: a call would copy it on the stack. Of the answer the test needs its
// length, `room`, and no byte.
#[inline(always)]
#[tactic(auto, unfolding(requests::specs::Requests::read_request))]
pub fn test_offer<'p, 'a>(
    page: &'p [u8],
    room: usize,
    record: &'a [u8],
    request: &'a [u8],
    form: Form,
) -> Result<(Page<'p>, Offer<'a>), Refusal>
    ensures tests { passing (λ o. o.1.asks) result ≡ offer_by (offered_at (form_of form) (length page.now) room «record».now request.now) (request_of request.now) }
    ensures of_page { IfOk result (λ o. o.0.bytes.now ≡ page.now) }
    ensures of_record { IfOk result (λ o. (o.1.«record».bytes.now ≡ «record».now) × (o.1.«record».form ≡ form)) }
    ensures of_request { IfOk result (λ o. o.1.request.now ≡ request.now) }
{
    let page = Page::of(page).ok_or(Refusal::Page)?;
    if room < form.record_size() {
        return Err(Refusal::Answer);
    }
    let record = test_record(record, form)?;
    let asks = read_request(request, form.racks()).ok_or(Refusal::Request)?;
    Ok((
        page,
        Offer {
            record,
            request,
            asks,
        },
    ))
}

// Tests 1 to 6 of view: of the size of the page, of the record and of the rack.
pub fn test_look<'p, 'a>(
    page: &'p [u8],
    record: &'a [u8],
    rack: usize,
    form: Form,
) -> Result<(Page<'p>, Record<'a>), Refusal>
    ensures tests { found result ≡ looked_at (form_of form) (length page.now) «record».now rack }
    ensures of_page { IfOk result (λ o. o.0.bytes.now ≡ page.now) }
    ensures of_record { IfOk result (λ o. (o.1.bytes.now ≡ «record».now) × (o.1.form ≡ form)) }
{
    let held = Page::of(page).ok_or(Refusal::Page)?;
    let record = test_record(record, form)?;
    if form.racks() <= rack {
        return Err(Refusal::Request);
    }
    Ok((held, record))
}
