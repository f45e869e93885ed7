// What perform and repeat go on with behind test 6.
ghost use Rattle.std.specs.Prelude.{◌≡◌, length};
ghost use Rattle.requests.specs.Layout.{request_size};
ghost use Rattle.requests.specs.Range.{InRange};
ghost use Rattle.records.specs.Form.{form_of};

use records::Record;
use requests::Request;

// A record, and a request for one of its racks: its bytes, and what they ask.
#[derive(Clone, Copy)]
pub struct Offer<'a> {
    pub record: Record<'a>,
    pub request: &'a [u8],
    pub asks: Request,
    ghost sized: { length request.now ≡ request_size },
    ghost ranged: { InRange (form_of record.form).racks asks },
}
