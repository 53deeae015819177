// The writer of the pass log: a record put at the front of lent bytes.
#![tactic(auto)]

ghost use Rattle.std.specs.Prelude.{true, ◌≡◌, ◌∷◌, ◌++◌, ◌+◌, ◌≤◌, length, drop};
ghost use Rattle.log_records.specs.Records.{two_of, is_kind, sum_of, record_of};
ghost use Rattle.log_writer.specs.Writer.{number_of, said_put, put_said, put_area};

use log_records::{is_kind, total_of};
use printer::put_bytes;

// Why the writer refused.
#[derive(Clone, Copy)]
pub enum Refused {
    UnknownKind,
    PayloadTooLong,
    NoRoom,
}

// The refusal's number in document 02.
pub fn number(r: Refused) -> u64
    ensures { result ≡ number_of r }
{
    match r {
        Refused::UnknownKind => 11,
        Refused::PayloadTooLong => 21,
        Refused::NoRoom => 22,
    }
}

// The mark, the kind and the length. Only this crate calls this function.
fn head_of(kind: u64, n: usize) -> [u8; 5]
    requires { (is_kind kind ≡ true) × (n ≤ 64) }
    ensures { result ≡ 0xD7 ∷ 0x1A ∷ kind ∷ two_of n }
{
    [
        0xD7,
        0x1A,
        kind as u8,
        (n % 256) as u8,
        (n / 256 % 256) as u8,
    ]
}

// The sum, of a head and a payload. Only this crate calls this function.
fn sum_of(head: [u8; 5], payload: &[u8]) -> [u8; 2]
    requires { (length head ≡ 5) × (length payload.now ≤ 64) }
    ensures { result ≡ two_of (sum_of (drop 2 head ++ payload.now)) }
{
    let sum = (total_of(&head, 2, 3) + total_of(payload, 0, payload.len())) % 65536;
    [(sum % 256) as u8, (sum / 256 % 256) as u8]
}

// The record, where there is room for it. Only this crate calls this function.
fn write(kind: u64, payload: &[u8], out: &mut [u8]) -> usize
    requires { (is_kind kind ≡ true) × (length payload.now ≤ 64) × (7 + length payload.now ≤ length out.old) }
    ensures length { result ≡ 7 + length payload.now }
    ensures area { out.new ≡ record_of kind payload.now ++ drop (7 + length payload.now) out.old }
{
    let head = head_of(kind, payload.len());
    let sum = sum_of(head, payload);
    let n = payload.len();
    put_bytes(out, 0, &head);
    put_bytes(out, 5, payload);
    put_bytes(out, 5 + n, &sum);
    7 + n
}

// Puts a record of that kind and payload at the front of `out`, and answers how many bytes it has. Takes the
// kinds 1 to 4 (refusal 11), up to 64 bytes of payload (21) and an `out` that holds the record (22); a
// refusal leaves `out` as it is. The kind stays a number, since refusal 11 is for every other one (document 02).
pub fn put_record(kind: u64, payload: &[u8], out: &mut [u8]) -> Result<usize, Refused>
    ensures answer { said_put result ≡ put_said kind payload.now (length out.old) }
    ensures area { out.new ≡ put_area kind payload.now out.old }
{
    if !is_kind(kind) {
        return Err(Refused::UnknownKind);
    }
    if payload.len() > 64 {
        return Err(Refused::PayloadTooLong);
    }
    if out.len() < 7 + payload.len() {
        return Err(Refused::NoRoom);
    }
    Ok(write(kind, payload, out))
}
