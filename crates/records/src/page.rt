// A page in lent bytes, and its parts where they lie.
#![tactic(auto, unfolding(numbers::specs::Parts::part))]

ghost use Rattle.std.specs.Prelude.{◌≡◌, length};
ghost use Rattle.records.specs.Page.{page_size};

use crate::{HASH_SIZE, PAGE_SIZE};

// Bytes of the size of a page.
#[derive(Clone, Copy)]
pub struct Page<'a> {
    pub bytes: &'a [u8],
    ghost sized: { length bytes.now ≡ page_size },
}

impl<'a> Page<'a> {
    ghost use Rattle.std.specs.Prelude.{◌↔◌, IfSome, IsSome};
    ghost use Rattle.records.specs.Page.{page_summary, page_key};

    // The page that the bytes are, if they are of its size. No `TryFrom`: which refusal it is, is the call's to say.
    pub fn of(bytes: &'a [u8]) -> Option<Page<'a>>
        ensures sized { IsSome result ↔ (length bytes.now ≡ page_size) }
        ensures same { IfSome result (λ page. page.bytes.now ≡ bytes.now) }
    {
        if bytes.len() == PAGE_SIZE {
            Some(Page { bytes })
        } else {
            None
        }
    }

    pub fn summary(&self) -> &'a [u8]
        ensures { result.now ≡ page_summary self.now.bytes.now }
    {
        &self.bytes[0..HASH_SIZE]
    }

    pub fn key(&self) -> &'a [u8]
        ensures { result.now ≡ page_key self.now.bytes.now }
    {
        &self.bytes[HASH_SIZE..PAGE_SIZE]
    }
}
