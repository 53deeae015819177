// The files that the words name, and that none is written which is another one.
use crate::words::{Words, is_log};
use file_facts::is_same;
use programs::{facts_in, is_one_file, say};
use system::{Fd, System};

// A log: the place of its name, its descriptor, and its size where it is
// a regular file, else 0.
#[derive(Clone, Copy)]
pub struct Log {
    pub word: usize,
    pub fd: Fd,
    pub size: u64,
}

// What is told in front of a name of a file that cannot be opened.
const CANNOT_OPEN: &[u8] = b"sheet: cannot open ";

// Opens a log. Where it cannot be opened, that is told.
pub fn open_log(sys: &mut System, word: usize) -> Option<Log> {
    programs::fill_low(sys);
    let opened = programs::open_input(sys, CANNOT_OPEN, word);
    if opened.is_none() {
        say(sys, b"sheet: that log is left out of the sheet\n");
    }
    let fd = opened?;
    Some(Log {
        word,
        fd,
        size: file_facts::size_of(file_facts::facts_of(sys, fd)),
    })
}

pub fn close_log(sys: &mut System, log: Log) {
    if log.fd.is_file() {
        let _ = sys.close(log.fd);
    }
}

// Opens a file to be written; what it held is gone.
pub fn open_out(sys: &mut System, at: usize) -> Option<Fd> {
    programs::fill_low(sys);
    programs::open_output(sys, CANNOT_OPEN, at)
}

// Says of the picture's file what else it is; whether it is that.
fn is_told(sys: &mut System, same: bool, what: &[u8]) -> bool {
    programs::is_told(sys, same, b"sheet: --picture names ", what)
}

// Whether the file is one of the logs.
fn is_some_log(sys: &mut System, w: Words, file: Option<usize>) -> bool {
    let mut found = false;
    for at in 1..sys.arg_count() {
        found = found | (is_log(sys, w, at) & is_one_file(sys, file, Some(at)));
    }
    found
}

fn is_output(sys: &mut System, file: Option<usize>) -> bool {
    file_facts::same_file(
        facts_in(sys, file),
        file_facts::facts_of(sys, system::OUTPUT),
    )
}

// Whether the picture's file is another file of the run, before any is opened; it is told.
pub fn has_clash(sys: &mut System, w: Words) -> bool {
    let common = w.common;
    if w.picture.is_none() {
        return false;
    }
    let log = is_some_log(sys, w, w.picture);
    let a = is_told(sys, log, b"a log");
    let output = is_output(sys, w.picture);
    let b = is_told(sys, output, b"standard output, where the sheet goes");
    let status = is_one_file(sys, w.picture, common.status);
    let c = is_told(sys, status, b"the file of --status");
    a | b | c
}

// Writes the status and a line feed into the file that --status names, if one is named and it is no other
// file of the run.
pub fn write_status(sys: &mut System, w: Words, status: u64) {
    let common = w.common;
    let Some(status_at) = common.status else {
        return;
    };
    programs::fill_low(sys);
    let taken = is_some_log(sys, w, common.status) | is_one_file(sys, w.picture, common.status);
    if taken
        | is_same(
            facts_in(sys, common.status),
            file_facts::facts_of(sys, system::OUTPUT),
        )
    {
        return;
    }
    let fd = open_out(sys, status_at);
    programs::put_status(sys, fd, status);
}
