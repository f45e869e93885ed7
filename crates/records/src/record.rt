// A record in lent bytes, and its parts where they lie.
#![tactic(auto, unfolding(numbers::specs::Parts::part))]

ghost use Rattle.std.specs.Prelude.{◌≡◌, length};
ghost use Rattle.records.specs.Form.{form_of};
ghost use Rattle.records.specs.Record.{record_size};

use crate::{Form, HASH_SIZE, HEADER_SIZE};

// Bytes of the size that a record of a form takes.
#[derive(Clone, Copy)]
pub struct Record<'a> {
    pub bytes: &'a [u8],
    pub form: Form,
    ghost sized: { length bytes.now ≡ record_size (form_of form) },
}

impl<'a> Record<'a> {
    ghost use Rattle.records.specs.Record.{state_bytes, summary, authenticator};

    // The racks.
    pub fn state(&self) -> &'a [u8]
        ensures { result.now ≡ state_bytes (form_of self.now.form) self.now.bytes.now }
    {
        let end = self.form.state_end();
        &self.bytes[HEADER_SIZE..end]
    }

    pub fn summary(&self) -> &'a [u8]
        ensures { result.now ≡ summary (form_of self.now.form) self.now.bytes.now }
    {
        let at = self.form.state_end();
        let end = at + HASH_SIZE;
        &self.bytes[at..end]
    }

    pub fn authenticator(&self) -> &'a [u8]
        ensures { result.now ≡ authenticator (form_of self.now.form) self.now.bytes.now }
    {
        let at = self.form.state_end() + HASH_SIZE;
        let end = at + HASH_SIZE;
        &self.bytes[at..end]
    }
}
