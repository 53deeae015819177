// A record of the pass log, and its reader. A record is the mark bytes 0xD7 0x1A, a kind byte, the payload's
// length in two bytes, the payload of up to 64 bytes, and in two bytes the sum of kind, length and payload
// bytes; the lowest byte first.
#![tactic(auto)]

mod reading;

pub use reading::{is_kind, length_at, read_record, total_of};

// What the reader answers of a record: its kind, where its payload begins and how long it is, and the place
// behind the record. The kind stays a number: refusal 11 and `take_record` of sheets speak of any (document 02).
#[derive(Clone, Copy)]
pub struct Record {
    pub kind: u8,
    pub from: usize,
    pub length: usize,
    pub next: usize,
}
