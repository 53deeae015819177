// The walk over the log: part after part, stretch after stretch.
ghost use Rattle.std.specs.Prelude.{◌≡◌, ◌-◌, ◌<◌, ◌≤◌, length, take};
ghost use Rattle.log_salvage.specs.Salvage.{stretch_at};
ghost use Rattle.log_parts.specs.Turn.{Inside, Follows, Turned};

use crate::files::Files;
use crate::listing::{Listed, keep, list_skipped, tell_end};
use log_parts::{Part, Walk, after, more, passed};
use log_salvage::{Stretch, next_stretch};
use programs::{Clock, say, say_count};
use system::{Fd, System};
use tally::plus;

// `going` is false behind the log's end: a flag and no None, since `turn` promises where the walk is there too.
#[derive(Clone, Copy)]
pub struct Run {
    pub walk: Walk,
    pub part: Part,
    pub listed: Listed,
    pub clock: Clock,
    pub going: bool,
}

fn first_run(sys: &mut System) -> Run
    ensures { (result.part.at ≡ 0) × (result.part.end ≡ 0) }
{
    Run {
        walk: Walk { from: 0, place: 0 },
        part: Part {
            at: 0,
            end: 0,
            last: false,
            failed: false,
        },
        listed: Listed {
            records: 0,
            kept: 0,
            stretches: 0,
            skipped: 0,
            good: true,
        },
        clock: Clock::now(sys),
        going: true,
    }
}

// Says so where a read failed, and how many bytes were read before.
fn tell_read(sys: &mut System, p: Part, w: Walk) {
    if p.failed {
        say(sys, b"salvage: ");
        say_count(
            sys,
            plus(w.place, p.end as u64),
            b" byte was read of the log and is",
            b" bytes were read of the log and are",
        );
        sys.fail(b" taken for the whole; reading on failed");
    }
}

// Says how far the walk is, of a log of that size, where that is due.
fn with_tick(sys: &mut System, before: Clock, l: Listed, w: Walk, size: u64) -> Clock {
    let mut clock = before;
    if clock.is_due(sys) {
        say(sys, b"salvage: ");
        say_count(sys, l.records, b" record kept, ", b" records kept, ");
        programs::say_walked(sys, w.place, size);
    }
    clock
}

// The log goes on: more of it is read. Only this crate calls this function.
fn read_on(sys: &mut System, r: Run, f: Files, buf: &mut [u8]) -> Run
    requires { Inside r.part buf.old × (r.part.end - r.part.at < 71) × (71 ≤ length buf.old) }
    ensures walk_value { (result.walk ≡ r.walk) × Inside result.part buf.new }
    ensures follows { Follows 0 r.part buf.old result.part buf.new }
{
    let walk = r.walk;
    let listed = r.listed;
    let part = more(sys, r.part, f.input, buf);
    tell_read(sys, part, walk);
    let clock = with_tick(sys, r.clock, listed, walk, f.size);
    Run {
        walk,
        part,
        listed,
        clock,
        going: true,
    }
}

// The log is over: what is skipped before its end is listed.
fn ended(sys: &mut System, r: Run) -> Run
    ensures { (result.walk ≡ r.walk) × (result.part ≡ r.part) }
{
    let walk = r.walk;
    let part = r.part;
    let clock = r.clock;
    let listed = list_skipped(sys, r.listed, walk);
    Run {
        walk,
        part,
        listed,
        clock,
        going: false,
    }
}

// One stretch, or more of the log. Only this crate calls this function.
fn turn(sys: &mut System, r: Run, f: Files, buf: &mut [u8]) -> Run
    requires { Inside r.part buf.old × (71 ≤ length buf.old) }
    ensures inside { Inside result.part buf.new }
    ensures turned { Turned (stretch_at (take r.part.end buf.old) r.part.at r.part.last) r.walk r.part buf.old result.walk result.part buf.new }
{
    let walk = r.walk;
    let part = r.part;
    let listed = r.listed;
    let clock = r.clock;
    let at = part.at;
    let end = part.end;
    let Some(stretch) = next_stretch(&buf[..end], at, part.last) else {
        if part.last {
            return ended(sys, r);
        }
        return read_on(sys, r, f, buf);
    };
    let n = stretch.length();
    let listed = match stretch {
        Stretch::Kept { .. } => keep(sys, listed, walk, f.output, &buf[at..at + n]),
        Stretch::Skipped { .. } => listed,
    };
    Run {
        walk: after(walk, Some(stretch)),
        part: passed(part, n),
        listed,
        clock,
        going: true,
    }
}

fn is_going(r: Run) -> bool {
    let l = r.listed;
    r.going & l.good
}

// Nothing says that the log ends, so there are as many turns as no log uses up.
fn turns(sys: &mut System, first: Run, f: Files, buf: &mut [u8]) -> Run
    requires { Inside first.part buf.old × (71 ≤ length buf.old) }
{
    let mut r = first;
    for _ in 0..u64::MAX {
        if !is_going(r) {
            break;
        }
        r = turn(sys, r, f, buf);
    }
    r
}

// The file of --out is closed, or it is told why not.
fn is_closed(sys: &mut System, fd: Fd) -> bool {
    let closed = sys.close(fd).is_ok();
    if !closed {
        sys.fail(b"salvage: closing the file of --out");
    }
    closed
}

// Salvages the log into its file; whether the log was read to its end and all was written.
pub fn salvage(sys: &mut System, f: Files) -> bool {
    let mut buf = io::large_buffer();
    let first = first_run(sys);
    let r = turns(sys, first, f, &mut buf);
    let part = r.part;
    let listed = r.listed;
    let closed = is_closed(sys, f.output);
    tell_end(sys, listed);
    listed.good & closed & !part.failed & !r.going
}
