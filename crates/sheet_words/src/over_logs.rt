// The sheet over logs that stand one after the other in the bytes of a line. Where each log ends is told by
// the bits of a sample.
use crate::texts::{put_end, put_line, put_total};
use lines::{End, Line};
use log_records::{Record, read_record};
use log_salvage::{Stretch, next_stretch};
use printer::{front_of, put_byte, put_bytes};
use script::values::{Values, count_at};
use sheets::{Sheet, Told, Turn, end_log, new_sheet, take_record};

// The sheet and the place behind its rows. `reads` says that the log is read on, from `place`.
#[derive(Clone, Copy)]
struct Walk {
    sheet: Sheet,
    end: usize,
    place: usize,
    reads: bool,
}

// What parts a row from the one before it, or the first from `ok`, which has two bytes.
fn put_parting(out: &mut [u8], at: usize) -> usize {
    if at == 2 {
        return put_byte(out, at, 32);
    }
    put_byte(out, at, 59)
}

fn put_row(out: &mut [u8], at: usize, l: Line, end: End) -> usize {
    let p1 = put_parting(out, at);
    let p2 = put_line(out, p1, l);
    let p3 = put_byte(out, p2, 32);
    put_end(out, p3, end)
}

fn put_word(out: &mut [u8], at: usize, end: End) -> usize {
    let p = put_parting(out, at);
    put_end(out, p, end)
}

fn put_told(out: &mut [u8], at: usize, told: Option<Told>) -> usize {
    let Some(t) = told else {
        return at;
    };
    match t.line {
        Some(l) => put_row(out, at, l, t.end),
        None => put_word(out, at, t.end),
    }
}

// After a record or a log's end.
fn told(out: &mut [u8], w: Walk, turn: Turn, place: usize) -> Walk {
    let told = turn.told;
    let sheet = turn.sheet;
    Walk {
        sheet,
        end: put_told(out, w.end, told),
        place,
        reads: turn.reads,
    }
}

// After a record, which stands in the log.
fn judged(sheet: Sheet, log: &[u8], record: Record) -> Turn {
    let a = front_of(log, record.from);
    let rest = &log[a..];
    let k = front_of(rest, record.length);
    take_record(sheet, record.kind, &rest[..k])
}

fn stopped(w: Walk) -> Walk {
    Walk { reads: false, ..w }
}

// The record at the place.
fn recorded(out: &mut [u8], w: Walk, log: &[u8]) -> Walk {
    let sheet = w.sheet;
    match read_record(log, w.place) {
        Some(record) => told(out, w, judged(sheet, log, record), record.next),
        None => stopped(w),
    }
}

fn at_place(w: Walk, place: usize) -> Walk {
    Walk { place, ..w }
}

// One stretch further.
fn walked(out: &mut [u8], w: Walk, log: &[u8]) -> Walk {
    match next_stretch(log, w.place, true) {
        Some(Stretch::Kept { .. }) => recorded(out, w, log),
        Some(Stretch::Skipped { start, length }) => at_place(w, start.saturating_add(length)),
        None => at_place(w, usize::MAX),
    }
}

fn goes_on(w: Walk, log: &[u8]) -> bool {
    w.reads & (w.place < log.len())
}

// A log's records. It has no more stretches than bytes.
fn put_records(out: &mut [u8], before: Walk, log: &[u8]) -> Walk {
    let mut w = before;
    for _ in 0..log.len() {
        w = walked(out, w, log);
        if !goes_on(w, log) {
            break;
        }
    }
    w
}

// A log, from its first byte, and its end where it was read so far.
fn put_log(out: &mut [u8], before: Walk, log: &[u8]) -> Walk {
    let first = Walk {
        place: 0,
        reads: true,
        ..before
    };
    let w = put_records(out, first, log);
    let sheet = w.sheet;
    if w.reads {
        return told(out, w, end_log(sheet), 0);
    }
    w
}

// The place where the log number k ends.
fn end_of(ends: &[f64], k: usize) -> usize {
    match ends.get(k) {
        Some(end) => text::bits_of(*end) as usize,
        None => 0,
    }
}

// The log number k, which begins where the one before it ends.
fn put_number(out: &mut [u8], w: Walk, bytes: &[u8], ends: &[f64], from: usize, k: usize) -> Walk {
    let to = front_of(bytes, end_of(ends, k));
    if from <= to {
        return put_log(out, w, &bytes[from..to]);
    }
    w
}

// Every log.
fn put_logs(out: &mut [u8], begun: Walk, logs: usize, bytes: &[u8], ends: &[f64]) -> Walk {
    let mut w = begun;
    let mut from = 0;
    for k in 0..logs {
        w = put_number(out, w, bytes, ends, from, k);
        from = end_of(ends, k);
    }
    w
}

// The rows of every log, and the total.
pub fn put_sheet(out: &mut [u8], values: Values, bytes: &[u8], ends: &[f64]) -> usize {
    let begun = Walk {
        sheet: new_sheet(),
        end: put_bytes(out, 0, b"ok"),
        place: 0,
        reads: true,
    };
    let w = put_logs(out, begun, count_at(values, 0), bytes, ends);
    let sheet = w.sheet;
    let total = sheet.total;
    let p = put_bytes(out, w.end, b" total ");
    put_total(out, p, total)
}
