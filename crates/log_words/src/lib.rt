// The call script's words on the pass log, which put their answers themselves, each at the start of the
// buffer. They answer how many bytes it has. Each function is proved safe and to end.
#![tactic(auto)]

use log_records::{Record, read_record};
use log_salvage::{Stretch, next_stretch};
use log_writer::{Refused, put_record};
use printer::{front_of, put_byte, put_bytes, put_decimal};
use script::values::{Values, count_at, number_at};
use text::glyph_of;

// The two digits of a byte.
fn put_digits(out: &mut [u8], at: usize, byte: u8) -> usize {
    let p = put_byte(out, at, glyph_of((byte / 16) as u64));
    put_byte(out, p, glyph_of((byte % 16) as u64))
}

// The digits of the bytes from one place up to another, as far as there are bytes.
pub fn put_hexes(out: &mut [u8], at: usize, bytes: &[u8], from: usize, to: usize) -> usize {
    let end = front_of(bytes, to);
    let mut p = at;
    for k in from..end {
        p = put_digits(out, p, bytes[k]);
    }
    p
}

// A `-` where nothing was put between two places.
fn or_dash(out: &mut [u8], from: usize, to: usize) -> usize {
    if to > from {
        return to;
    }
    put_byte(out, from, 45)
}

fn put_refused(out: &mut [u8], r: Refused) -> usize {
    let p = put_bytes(out, 0, b"ref ");
    put_decimal(out, p, log_writer::number(r))
}

// The record that stands at the front of the lent bytes.
fn put_record_of(out: &mut [u8], record: &[u8; 4096], n: usize) -> usize {
    let p = put_bytes(out, 0, b"ok ");
    put_hexes(out, p, record, 0, n)
}

// A record of a kind and a payload, in lent bytes of which there are no more than the buffer has.
pub fn logput(out: &mut [u8], values: Values, bytes: &[u8]) -> usize {
    let mut area = io::buffer();
    let kind = number_at(values, 0);
    let n = front_of(bytes, count_at(values, 1));
    let room = front_of(&area, count_at(values, 2));
    match put_record(kind, &bytes[..n], &mut area[..room]) {
        Ok(len) => put_record_of(out, &area, len),
        Err(r) => put_refused(out, r),
    }
}

// kind PAYLOAD next
fn put_read(out: &mut [u8], log: &[u8], record: Record) -> usize {
    let p1 = put_bytes(out, 0, b"ok ");
    let p2 = put_decimal(out, p1, record.kind as u64);
    let p3 = put_byte(out, p2, 32);
    let p4 = put_hexes(
        out,
        p3,
        log,
        record.from,
        record.from.saturating_add(record.length),
    );
    let p5 = or_dash(out, p3, p4);
    let p6 = put_byte(out, p5, 32);
    put_decimal(out, p6, record.next as u64)
}

// The record at a place.
pub fn logread(out: &mut [u8], values: Values, bytes: &[u8]) -> usize {
    let n = front_of(bytes, count_at(values, 1));
    match read_record(&bytes[..n], count_at(values, 0)) {
        Some(record) => put_read(out, bytes, record),
        None => put_bytes(out, 0, b"none"),
    }
}

// What parts a stretch from the one before it; the first has none.
fn put_parting(out: &mut [u8], at: usize, start: usize) -> usize {
    if start == 0 {
        return at;
    }
    put_byte(out, at, 59)
}

// A stretch: its word, where it begins and how long it is.
fn put_words(out: &mut [u8], at: usize, word: &[u8], start: usize, n: usize) -> usize {
    let p1 = put_parting(out, at, start);
    let p2 = put_bytes(out, p1, word);
    let p3 = put_decimal(out, p2, start as u64);
    let p4 = put_byte(out, p3, 32);
    put_decimal(out, p4, n as u64)
}

fn put_listed(out: &mut [u8], at: usize, stretch: Stretch) -> usize {
    match stretch {
        Stretch::Skipped { start, length } => put_words(out, at, b"skipped ", start, length),
        Stretch::Kept { start, length } => put_words(out, at, b"kept ", start, length),
    }
}

// The bytes of a stretch that is kept.
fn put_kept(out: &mut [u8], at: usize, log: &[u8], stretch: Stretch) -> usize {
    match stretch {
        Stretch::Kept { start, length } => put_hexes(
            out,
            at,
            log,
            start,
            start.saturating_add(length),
        ),
        Stretch::Skipped { .. } => at,
    }
}

// Where the next stretch begins.
fn next_of(stretch: Stretch) -> usize {
    match stretch {
        Stretch::Skipped { start, length } | Stretch::Kept { start, length } => {
            start.saturating_add(length)
        }
    }
}

// What `put` puts of every stretch, or a `-`. A log has no more stretches than bytes.
fn put_walk<F: Fn(&mut [u8], usize, Stretch) -> usize>(
    out: &mut [u8],
    at: usize,
    log: &[u8],
    put: F,
) -> usize
    requires { F.IsAlwaysCallable put }
{
    let mut p = at;
    let mut place = 0;
    for _ in 0..log.len() {
        let Some(stretch) = next_stretch(log, place, true) else {
            break;
        };
        p = put(out, p, stretch);
        place = next_of(stretch);
    }
    or_dash(out, at, p)
}

// What salvage lists, and then what it keeps.
pub fn salvage(out: &mut [u8], values: Values, bytes: &[u8]) -> usize {
    let n = front_of(bytes, count_at(values, 0));
    let log = &bytes[..n];
    let p1 = put_bytes(out, 0, b"ok ");
    let p2 = put_walk(
        out,
        p1,
        log,
        |out: &mut [u8], at, stretch| put_listed(out, at, stretch),
    );
    let p3 = put_byte(out, p2, 32);
    put_walk(
        out,
        p3,
        log,
        |out: &mut [u8], at, stretch| put_kept(out, at, log, stretch),
    )
}
