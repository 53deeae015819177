// Where a record stands, and what it holds.
ghost use Rattle.std.specs.Prelude.{◌≡◌, ◌&&◌, ◌+◌, ◌*◌, ◌<◌, ◌≤◌, length, take, drop, IfSome};
ghost use Rattle.log_records.specs.Records.{two_at, is_kind, total, mark_agrees, kind_agrees, sum_agrees, length_at, read_at};

use crate::Record;

// The number of two bytes. Only this crate calls this function.
fn two_at(log: &[u8], at: usize) -> usize
    requires { at + 2 ≤ length log.now }
    ensures { (result ≡ two_at log.now at) × (result < 65536) }
{
    usize::from(log[at]) + 256 * usize::from(log[at + 1])
}

// A construction, a setting, a block or a reset.
pub fn is_kind(kind: u64) -> bool
    ensures { result ≡ is_kind kind }
{
    (1 <= kind) & (kind <= 4)
}

// Whether a mark and a kind stand there. Only this crate calls this function.
fn head_agrees(log: &[u8], at: usize) -> bool
    requires { at + 3 ≤ length log.now }
    ensures { result ≡ (mark_agrees (drop at log.now) && kind_agrees (drop at log.now)) }
{
    let kind = log[at + 2];
    ((log[at] == 0xD7) & (log[at + 1] == 0x1A)) & ((1 <= kind) & (kind <= 4))
}

// So many bytes added up. Only our own crates call this function.
pub fn total_of(bytes: &[u8], from: usize, n: usize) -> usize
    requires { (from + n ≤ length bytes.now) × (n ≤ 67) }
    ensures { (result ≡ total (take n (drop from bytes.now))) × (result ≤ 255 * n) }
{
    let mut sum = 0;
    for byte in &bytes[from..from + n] {
        sum += usize::from(*byte);
    }
    sum
}

// Whether the sum of a record that lies whole in the log, with a payload of n bytes, is its own. Only this
// crate calls this function.
fn sum_agrees(log: &[u8], at: usize, n: usize) -> bool
    requires { (n ≡ two_at log.now (at + 3)) × (n ≤ 64) × (at + (7 + n) ≤ length log.now) }
    ensures { result ≡ sum_agrees (drop at log.now) }
{
    two_at(log, at + (5 + n)) == total_of(log, at + 2, 3 + n) % 65536
}

// How many bytes the record has that stands at the place `at`, if one does.
pub fn length_at(log: &[u8], at: usize) -> Option<usize>
    ensures value { result ≡ length_at log.now at }
    ensures room { IfSome result (λ n. (7 ≤ n) × (at + n ≤ length log.now)) }
{
    if at > log.len() {
        return None;
    }
    if log.len() - at < 7 {
        return None;
    }
    if !head_agrees(log, at) {
        return None;
    }
    let n = two_at(log, at + 3);
    if n > 64 {
        return None;
    }
    if log.len() - at < 7 + n {
        return None;
    }
    if sum_agrees(log, at, n) {
        Some(7 + n)
    } else {
        None
    }
}

// The record at the place `at`. Nothing is copied: the payload stands in the log.
pub fn read_record(log: &[u8], at: usize) -> Option<Record>
    ensures { result ≡ read_at log.now at }
{
    let n = length_at(log, at)?;
    Some(Record {
        kind: log[at + 2],
        from: at + 5,
        length: n - 7,
        next: at + n,
    })
}
