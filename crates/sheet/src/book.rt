// What goes with the walk over a log: the page, the picture's points, the clock, and what was seen of the log.
use crate::files::Log;
use crate::page::{Page, with_told};
use crate::told::say_word;
use drift_picture::Chart;
use log_parts::Walk;
use log_records::{Record, read_record};
use programs::{Clock, say_count};
use sheets::take_record;
use system::System;
use tally::plus;

// How many records of the log were taken, and how many stretches were skipped, of how many bytes.
#[derive(Clone, Copy)]
pub struct Seen {
    pub records: u64,
    pub stretches: u64,
    pub skipped: u64,
}

#[derive(Clone, Copy)]
pub struct Book {
    pub page: Page,
    pub clock: Clock,
    pub seen: Seen,
}

pub fn nothing_seen() -> Seen {
    Seen {
        records: 0,
        stretches: 0,
        skipped: 0,
    }
}

// Counts what is skipped in front of the walk's place, if anything is.
fn counted(s: Seen, w: Walk) -> Seen {
    if w.from >= w.place {
        return s;
    }
    Seen {
        stretches: plus(s.stretches, 1),
        skipped: plus(s.skipped, w.place - w.from),
        ..s
    }
}

pub fn with_skipped(b: Book, w: Walk) -> Book {
    Book {
        seen: counted(b.seen, w),
        ..b
    }
}

// Says how far the log is, where that is due.
pub fn with_tick(sys: &mut System, b: Book, log: Log, w: Walk) -> Book {
    let mut clock = b.clock;
    if clock.is_due(sys) {
        say_word(sys, b"sheet: ", log.word, b": ");
        say_count(sys, b.seen.records, b" record, ", b" records, ");
        programs::say_walked(sys, w.place, log.size);
    }
    Book { clock, ..b }
}

// What a record of that kind and payload does to the sheet, told where there is something to tell.
fn with_call(
    sys: &mut System,
    b: Book,
    log: Log,
    w: Walk,
    kind: u8,
    payload: &[u8],
    chart: &mut Option<Chart>,
) -> Book {
    let turn = take_record(b.page.sheet, kind, payload);
    let sheet = turn.sheet;
    let page = Page {
        sheet,
        reads: turn.reads,
        ..with_told(sys, b.page, log, turn.told, w.place, false)
    };
    if turn.reads & (kind == 3) {
        if let Some(drawn) = chart {
            drawn.add_block(sheet);
        }
    }
    Book { page, ..b }
}

// The record that stands in these bytes, by its kind and payload.
fn with_payload(
    sys: &mut System,
    b: Book,
    log: Log,
    w: Walk,
    record: Record,
    bytes: &[u8],
    chart: &mut Option<Chart>,
) -> Book {
    if record.from > bytes.len() {
        return b;
    }
    let rest = &bytes[record.from..];
    if record.length > rest.len() {
        return b;
    }
    with_call(sys, b, log, w, record.kind, &rest[..record.length], chart)
}

// The record that these bytes are, at the walk's place, and what is skipped in front of it.
pub fn with_record(
    sys: &mut System,
    b: Book,
    log: Log,
    w: Walk,
    bytes: &[u8],
    chart: &mut Option<Chart>,
) -> Book {
    let before = counted(b.seen, w);
    let seen = Seen {
        records: plus(before.records, 1),
        ..before
    };
    let counted = Book { seen, ..b };
    match read_record(bytes, 0) {
        Some(record) => with_payload(sys, counted, log, w, record, bytes, chart),
        None => counted,
    }
}
