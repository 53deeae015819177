// The sheet, and what was told of it.
use crate::files::Log;
use crate::rows::{write_row, write_word};
use lines::{End, Line, is_inside};
use sheets::{Sheet, Told, new_sheet};
use system::System;
use tally::plus;

// The sheet; how many lines of this log were told, its word alone counting as one; whether this log is read on,
// every log was read whole, every line is inside, and all was written: flags and no Err, since a picture is drawn
// all the same.
#[derive(Clone, Copy)]
pub struct Page {
    pub sheet: Sheet,
    pub lines: u64,
    pub reads: bool,
    pub whole: bool,
    pub inside: bool,
    pub good: bool,
}

pub fn new_page() -> Page {
    Page {
        sheet: new_sheet(),
        lines: 0,
        reads: true,
        whole: true,
        inside: true,
        good: true,
    }
}

// The page before a log.
pub fn turned_over(p: Page) -> Page {
    Page {
        lines: 0,
        reads: true,
        ..p
    }
}

// Something of a log is missing.
pub fn not_whole(p: Page) -> Page {
    Page { whole: false, ..p }
}

fn is_call(end: End) -> bool {
    matches!(end, End::Open | End::Closed)
}

// The page with one line more told, or why that could not be written.
fn written(sys: &mut System, p: Page, done: bool, inside: bool, call: bool) -> Page {
    if !done {
        sys.fail(b"sheet: writing the sheet to standard output");
    }
    Page {
        lines: plus(p.lines, 1),
        inside: p.inside & inside,
        whole: p.whole & call,
        good: p.good & done,
        ..p
    }
}

fn with_row(sys: &mut System, p: Page, log: Log, l: Line, end: End, place: u64, cut: bool) -> Page {
    let done = write_row(sys, log.word, plus(p.lines, 1), l, end, place, cut);
    written(sys, p, done, is_inside(l), is_call(end))
}

// Tells what there is to tell of the record at the place, or of the log's end there.
pub fn with_told(
    sys: &mut System,
    p: Page,
    log: Log,
    told: Option<Told>,
    place: u64,
    cut: bool,
) -> Page {
    let Some(t) = told else {
        return p;
    };
    match t.line {
        Some(l) => with_row(sys, p, log, l, t.end, place, cut),
        None => {
            let done = write_word(sys, log.word, t.end, place);
            written(sys, p, done, true, false)
        }
    }
}
