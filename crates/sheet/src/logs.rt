// The logs, one after the other, and the total behind them.
use crate::book::{Book, Seen, nothing_seen};
use crate::files::{Log, close_log, open_log};
use crate::page::{Page, new_page, not_whole, turned_over, with_told};
use crate::rows::write_total;
use crate::run::{Run, first_run, turns};
use crate::told::say_word;
use crate::words::{Words, is_log};
use drift_picture::Chart;
use log_parts::Part;
use programs::{Clock, say, say_count};
use sheets::end_log;
use system::System;

// Says what was skipped of a log, if anything was.
fn tell_skipped(sys: &mut System, log: Log, s: Seen) {
    if s.stretches > 0 {
        say_word(sys, b"sheet: ", log.word, b": skipped ");
        say_count(sys, s.skipped, b" byte in ", b" bytes in ");
        say_count(sys, s.stretches, b" stretch", b" stretches");
        say(
            sys,
            b" where no good record stands: they are no calls, and calls may be missing\n",
        );
    }
}

// Says so where a log has no line.
fn tell_none(sys: &mut System, log: Log, p: Page) {
    if p.good & (p.lines == 0) {
        say_word(
            sys,
            b"sheet: ",
            log.word,
            b": no line: it has no construction, reset or block\n",
        );
    }
}

// The end of a log: its line, where one is open, is told.
fn with_end(sys: &mut System, p: Page, log: Log, part: Part, place: u64) -> Page {
    let turn = end_log(p.sheet);
    let told = if p.good { turn.told } else { None };
    Page {
        sheet: turn.sheet,
        ..with_told(sys, p, log, told, place, part.failed)
    }
}

// What is told of a log behind its last record.
fn with_log_end(sys: &mut System, r: Run, log: Log) -> Book {
    let part = r.part;
    let walk = r.walk;
    let book = r.book;
    let seen = book.seen;
    let page = with_end(sys, book.page, log, part, walk.place);
    tell_skipped(sys, log, seen);
    tell_none(sys, log, page);
    let missing = part.failed | (seen.stretches > 0);
    Book {
        page: if missing { not_whole(page) } else { page },
        ..book
    }
}

// One log. One that cannot be opened is left out.
fn with_log(
    sys: &mut System,
    b: Book,
    word: usize,
    buf: &mut [u8; 65536],
    chart: &mut Option<Chart>,
) -> Book {
    let Some(log) = open_log(sys, word) else {
        return Book {
            page: not_whole(b.page),
            ..b
        };
    };
    let begun = Book {
        page: turned_over(b.page),
        seen: nothing_seen(),
        ..b
    };
    let r = turns(sys, first_run(begun), log, buf, chart);
    close_log(sys, log);
    with_log_end(sys, r, log)
}

// The word at the place `at`, where it names a log and all was written so far.
fn with_word(
    sys: &mut System,
    b: Book,
    w: Words,
    at: usize,
    buf: &mut [u8; 65536],
    chart: &mut Option<Chart>,
) -> Book {
    let p = b.page;
    if p.good & is_log(sys, w, at) {
        return with_log(sys, b, at, buf, chart);
    }
    b
}

fn all_logs(
    sys: &mut System,
    w: Words,
    first: Book,
    buf: &mut [u8; 65536],
    chart: &mut Option<Chart>,
) -> Book {
    let mut b = first;
    for at in 1..sys.arg_count() {
        b = with_word(sys, b, w, at, buf, chart);
    }
    b
}

// The total behind the last log.
fn with_total(sys: &mut System, p: Page) -> Page {
    if !p.good {
        return p;
    }
    let good = write_total(sys, p.sheet.total, p.whole);
    if !good {
        sys.fail(b"sheet: writing the total to standard output");
    }
    Page { good, ..p }
}

// Reads every log, and prints the sheet.
pub fn read_logs(sys: &mut System, w: Words, chart: &mut Option<Chart>) -> Book {
    let mut buf = io::large_buffer();
    let first = Book {
        page: new_page(),
        clock: Clock::now(sys),
        seen: nothing_seen(),
    };
    let b = all_logs(sys, w, first, &mut buf, chart);
    Book {
        page: with_total(sys, b.page),
        ..b
    }
}
