// The listing on standard output, the records in their file, and what is told of them.
use bounded::Text;
use log_parts::Walk;
use programs::{say, say_count};
use std::fmt::Write;
use system::{Fd, System};
use tally::plus;

// How much was listed: records that are kept and their bytes, stretches that are skipped and theirs. `good` is
// false once something could not be written: a flag and no Err, since what was listed before is told all the same.
#[derive(Clone, Copy)]
pub struct Listed {
    pub records: u64,
    pub kept: u64,
    pub stretches: u64,
    pub skipped: u64,
    pub good: bool,
}

// Why something could not be written, and so nothing more is.
fn failed(sys: &mut System, l: Listed, what: &[u8]) -> Listed {
    sys.fail(what);
    say(
        sys,
        b"salvage: broken off: the file of --out may have a record more, or a part of one\n",
    );
    Listed { good: false, ..l }
}

// The line of a stretch, by one write; whether it was written.
fn write_line(sys: &mut System, word: &str, start: u64, n: u64) -> bool {
    let mut line = Text::<64>::new();
    let _ = write!(line, "{word} {start} {n}\n");
    sys.write_all(system::OUTPUT, line.as_bytes())
}

// Lists what is skipped in front of the walk's place, if anything is.
pub fn list_skipped(sys: &mut System, l: Listed, w: Walk) -> Listed {
    if w.from >= w.place {
        return l;
    }
    let n = w.place - w.from;
    if !write_line(sys, "skipped", w.from, n) {
        return failed(sys, l, b"salvage: writing the listing to standard output");
    }
    Listed {
        stretches: plus(l.stretches, 1),
        skipped: plus(l.skipped, n),
        ..l
    }
}

// The record that stands at the walk's place: written to its file, and then listed.
fn keep_record(sys: &mut System, l: Listed, w: Walk, fd: Fd, record: &[u8]) -> Listed {
    if !sys.write_all(fd, record) {
        return failed(sys, l, b"salvage: writing the records to the file of --out");
    }
    let n = record.len() as u64;
    if !write_line(sys, "kept", w.place, n) {
        return failed(sys, l, b"salvage: writing the listing to standard output");
    }
    Listed {
        records: plus(l.records, 1),
        kept: plus(l.kept, n),
        ..l
    }
}

// What is skipped in front of a record, and the record.
pub fn keep(sys: &mut System, l: Listed, w: Walk, fd: Fd, record: &[u8]) -> Listed {
    let before = list_skipped(sys, l, w);
    if before.good {
        return keep_record(sys, before, w, fd, record);
    }
    before
}

// What was kept and skipped, at the end.
pub fn tell_end(sys: &mut System, l: Listed) {
    say(sys, b"salvage: kept ");
    say_count(sys, l.records, b" record, ", b" records, ");
    say_count(sys, l.kept, b" byte; ", b" bytes; ");
    if l.stretches == 0 {
        say(sys, b"nothing skipped\n");
        return;
    }
    say(sys, b"skipped ");
    say_count(sys, l.stretches, b" stretch, ", b" stretches, ");
    say_count(sys, l.skipped, b" byte\n", b" bytes\n");
}
