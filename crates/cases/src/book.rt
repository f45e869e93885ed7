// A book to try the cases on: a page with the record that goes with it, and requests by value.
use refusals::Refusal;

const PAGE_SIZE: usize = 64;

const RECORD_SIZE: usize = 451;

#[derive(Clone, Copy)]
pub(crate) struct Book {
    page: [u8; PAGE_SIZE],
    record: [u8; RECORD_SIZE],
}

impl Book {
    // A page with summary zero and a key, and the record that open answers.
    pub(crate) fn opened() -> Result<Book, Refusal> {
        let mut page = [0; PAGE_SIZE];
        page[32..].fill(0x5A);
        let mut record = [0; RECORD_SIZE];
        keeper::open(&page, &mut record)?;
        Ok(Book { page, record })
    }

    // The page that perform leaves, and the record that it answers.
    pub(crate) fn after(&self, request: &[u8]) -> Result<Book, Refusal> {
        let mut page = self.page;
        let mut record = [0; RECORD_SIZE];
        keeper::perform(&mut page, &self.record, request, &mut record)?;
        Ok(Book { page, record })
    }

    // This page, and the record of another book.
    pub(crate) fn with_record_of(&self, other: &Book) -> Book {
        Book {
            record: other.record,
            ..*self
        }
    }

    // The number that perform answers.
    pub(crate) fn number_for(&self, request: &[u8]) -> u32 {
        self.number_in(request, &mut [0; RECORD_SIZE])
    }

    // The same, with the answer written into a buffer of the caller's.
    pub(crate) fn number_in(&self, request: &[u8], answer: &mut [u8]) -> u32 {
        let mut page = self.page;
        keeper::number(keeper::perform(&mut page, &self.record, request, answer))
    }

    // The number that view answers.
    pub(crate) fn view_number(&self, rack: u32) -> u32 {
        keeper::number(keeper::view(&self.page, &self.record, rack))
    }
}

// A request of version 1, its amount under 256.
pub(crate) fn request(kind: u8, rack: u8, other: u8, amount: u8) -> [u8; 10] {
    [0, 8, 1, kind, rack, other, 0, 0, 0, amount]
}
