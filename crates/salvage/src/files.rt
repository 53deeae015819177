// The files that the words name: opened in order, and never one in the place of another.
use crate::words::Words;
use file_facts::{Facts, is_same};
use programs::{Common, facts_in, is_one_file};
use system::{Fd, System};

// The log, and where its records go. `size` is the log's where it is a regular file, else 0.
#[derive(Clone, Copy)]
pub struct Files {
    pub input: Fd,
    pub output: Fd,
    pub size: u64,
}

// What is told in front of a name of a file that cannot be opened.
const CANNOT_OPEN: &[u8] = b"salvage: cannot open ";

// Says of a file that --out names what else it is; whether it is that.
fn is_told(sys: &mut System, same: bool, what: &[u8]) -> bool {
    programs::is_told(sys, same, b"salvage: --out names ", what)
}

// Whether --out is another file of the run, before it is opened; it is told.
fn has_clash(sys: &mut System, common: Common, log: Option<Facts>) -> bool {
    let out = facts_in(sys, common.out);
    let output = file_facts::facts_of(sys, system::OUTPUT);
    let a = is_told(sys, is_same(out, log), b"the log");
    let b = is_told(
        sys,
        file_facts::same_file(out, output),
        b"standard output, where the listing goes",
    );
    let status = is_one_file(sys, common.out, common.status);
    let c = is_told(sys, status, b"the file of --status");
    a | b | c
}

// Opens the log, and then what is written. Where one cannot be opened, or --out is another file of the run,
// that is told, and there are none.
pub fn open_files(sys: &mut System, w: Words) -> Option<Files> {
    programs::fill_low(sys);
    let input = programs::open_input(sys, CANNOT_OPEN, w.file?)?;
    let log = file_facts::facts_of(sys, input);
    let common = w.common;
    if has_clash(sys, common, log) {
        return None;
    }
    let output = programs::open_output(sys, CANNOT_OPEN, common.out?)?;
    Some(Files {
        input,
        output,
        size: file_facts::size_of(log),
    })
}

// Whether the file for the status is another file of the run.
fn is_status_taken(sys: &mut System, w: Words) -> bool {
    let common = w.common;
    let status = facts_in(sys, common.status);
    let a = is_same(status, facts_in(sys, w.file));
    let b = is_one_file(sys, common.out, common.status);
    let c = is_same(status, file_facts::facts_of(sys, system::OUTPUT));
    a | b | c
}

// Writes the status and a line feed into the file that --status names, if one is named and it is no other
// file of the run.
pub fn write_status(sys: &mut System, w: Words, status: u64) {
    let Some(status_at) = w.common.status else {
        return;
    };
    programs::fill_low(sys);
    if is_status_taken(sys, w) {
        return;
    }
    let fd = programs::open_output(sys, CANNOT_OPEN, status_at);
    programs::put_status(sys, fd, status);
}
