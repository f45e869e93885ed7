// What a form of record comes to: its racks, its header, the byte before its state where that is hashed, and its sizes.
ghost use Rattle.std.specs.Prelude.{◌≡◌, ◌+◌, ◌<◌};
ghost use Rattle.records.specs.Form.{form_of};
ghost use Rattle.records.specs.Record.{header, state_size, record_size};

use crate::{Form, HASH_SIZE, HEADER_SIZE};
use racks::{RACK_SIZE, RACKS};

impl Form {
    // How many racks a record holds.
    pub fn racks(self) -> usize
        ensures { result ≡ (form_of self).racks }
    {
        match self {
            Form::Version1 => RACKS,
        }
    }

    // The three bytes that a record begins with: its length and its version.
    #[tactic(auto, using(crate::proofs::FormLaws::header_said))]
    pub fn header(self) -> [u8; 3]
        ensures { result ≡ header (form_of self) }
    {
        match self {
            Form::Version1 => *b"\x01\xC1\x01",
        }
    }

    // The byte that is hashed before a state.
    pub fn tag(self) -> u8
        ensures { result ≡ (form_of self).tag }
    {
        match self {
            Form::Version1 => 0x01,
        }
    }

    // Where the racks of a record end.
    pub fn state_end(self) -> usize
        ensures value { result ≡ 3 + state_size (form_of self) }
        ensures upper_bound { result < 65536 }
    {
        HEADER_SIZE + self.racks() * RACK_SIZE
    }

    // How many bytes a record takes.
    pub fn record_size(self) -> usize
        ensures { result ≡ record_size (form_of self) }
    {
        self.state_end() + HASH_SIZE + HASH_SIZE
    }
}
