// The walk over a log: part after part, stretch after stretch.
ghost use Rattle.std.specs.Prelude.{◌≡◌, ◌-◌, ◌<◌, ◌≤◌, length, take};
ghost use Rattle.log_salvage.specs.Salvage.{stretch_at};
ghost use Rattle.log_parts.specs.Turn.{Inside, Follows, Turned};

use crate::book::{Book, with_record, with_skipped, with_tick};
use crate::files::Log;
use crate::told::say_word;
use drift_picture::Chart;
use log_parts::{Part, Walk, after, more, passed};
use log_salvage::{Stretch, next_stretch};
use programs::say_count;
use system::System;
use tally::plus;

// `going` is false behind the log's end: a flag and no None, since `turn` promises where the walk is there too.
#[derive(Clone, Copy)]
pub struct Run {
    pub walk: Walk,
    pub part: Part,
    pub book: Book,
    pub going: bool,
}

// Before a log.
pub fn first_run(book: Book) -> Run
    ensures { (result.part.at ≡ 0) × (result.part.end ≡ 0) }
{
    Run {
        walk: Walk { from: 0, place: 0 },
        part: Part {
            at: 0,
            end: 0,
            last: false,
            failed: false,
        },
        book,
        going: true,
    }
}

// Says so where a read failed, and how many bytes were read before. Why it failed comes first: asking for the
// log's name forgets it.
fn tell_read(sys: &mut System, p: Part, w: Walk, log: Log) {
    if p.failed {
        sys.fail(b"sheet: reading a log failed");
        say_word(sys, b"sheet: ", log.word, b": ");
        say_count(
            sys,
            plus(w.place, p.end as u64),
            b" byte was read, and is all that the sheet has of it\n",
            b" bytes were read, and are all that the sheet has of it\n",
        );
    }
}

// The log goes on: more of it is read. Only this crate calls this function.
fn read_on(sys: &mut System, r: Run, log: Log, buf: &mut [u8]) -> Run
    requires { Inside r.part buf.old × (r.part.end - r.part.at < 71) × (71 ≤ length buf.old) }
    ensures walk_value { (result.walk ≡ r.walk) × Inside result.part buf.new }
    ensures follows { Follows 0 r.part buf.old result.part buf.new }
{
    let walk = r.walk;
    let book = r.book;
    let part = more(sys, r.part, log.fd, buf);
    tell_read(sys, part, walk, log);
    Run {
        walk,
        part,
        book: with_tick(sys, book, log, walk),
        going: true,
    }
}

// The log is over: what is skipped before its end is counted.
fn ended(r: Run) -> Run
    ensures { (result.walk ≡ r.walk) × (result.part ≡ r.part) }
{
    let walk = r.walk;
    let part = r.part;
    let book = with_skipped(r.book, walk);
    Run {
        walk,
        part,
        book,
        going: false,
    }
}

// One stretch, or more of the log. Only this crate calls this function.
fn turn(sys: &mut System, r: Run, log: Log, buf: &mut [u8], chart: &mut Option<Chart>) -> Run
    requires { Inside r.part buf.old × (71 ≤ length buf.old) }
    ensures inside { Inside result.part buf.new }
    ensures turned { Turned (stretch_at (take r.part.end buf.old) r.part.at r.part.last) r.walk r.part buf.old result.walk result.part buf.new }
{
    let walk = r.walk;
    let part = r.part;
    let book = r.book;
    let at = part.at;
    let end = part.end;
    let Some(stretch) = next_stretch(&buf[..end], at, part.last) else {
        if part.last {
            return ended(r);
        }
        return read_on(sys, r, log, buf);
    };
    let n = stretch.length();
    let book = match stretch {
        Stretch::Kept { .. } => with_record(sys, book, log, walk, &buf[at..at + n], chart),
        Stretch::Skipped { .. } => book,
    };
    Run {
        walk: after(walk, Some(stretch)),
        part: passed(part, n),
        book,
        going: true,
    }
}

fn is_going(r: Run) -> bool {
    let book = r.book;
    let page = book.page;
    r.going & page.good & page.reads
}

// Nothing says that the log ends, so there are as many turns as no log uses up.
pub fn turns(
    sys: &mut System,
    first: Run,
    log: Log,
    buf: &mut [u8],
    chart: &mut Option<Chart>,
) -> Run
    requires { Inside first.part buf.old × (71 ≤ length buf.old) }
{
    let mut r = first;
    for _ in 0..u64::MAX {
        if !is_going(r) {
            break;
        }
        r = turn(sys, r, log, buf, chart);
    }
    r
}
