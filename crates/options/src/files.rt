// The files that the words name, opened in order.
use crate::clashes::{has_clash, is_output, is_passlog_taken, log_stream};
use crate::named::{Opened, open_to_read, open_to_write, remove};
use crate::options::{Options, Place, file_of};
use file_facts::Facts;
use system::{Fd, System};

// Where samples come from and go to, where the log and the pass log go, the plan and the table: the input, the
// plan and the table are open first. `input_bytes` is the input's size where it is a regular file, else 0.
#[derive(Clone, Copy)]
pub struct Files {
    pub input: Fd,
    pub output: Option<Fd>,
    pub log: Fd,
    pub passlog: Option<Fd>,
    pub plan: Option<Fd>,
    pub table: Option<Fd>,
    pub log_file: bool,
    pub input_bytes: u64,
}

// A file that is not to be written after all: one that was not there before is removed again.
fn give_up(sys: &mut System, opened: Opened, place: Place) {
    if opened.made {
        remove(sys, place);
    }
}

// Opens the pass log, where one is named. It is opened before the log, so that a second name of it, as far as
// the system tells, is found whichever of the two it is; that is told.
pub fn open_passlog(sys: &mut System, o: &Options, files: Files) -> Option<Files> {
    let Some(place) = o.passlog else {
        return Some(files);
    };
    let opened = open_to_write(sys, place)?;
    let facts = file_facts::facts_of(sys, opened.fd);
    if is_passlog_taken(sys, o, facts) {
        give_up(sys, opened, place);
        return None;
    }
    Some(Files {
        passlog: Some(opened.fd),
        ..files
    })
}

// The log, open. Where it is a second name of the output, as far as the system tells, that is told.
fn log_of(sys: &mut System, o: &Options) -> Option<Fd> {
    let Some(place) = file_of(o.log) else {
        let fd = log_stream(o);
        return if is_output(sys, o, fd) {
            None
        } else {
            Some(fd)
        };
    };
    let opened = open_to_write(sys, place)?;
    if is_output(sys, o, opened.fd) {
        give_up(sys, opened, place);
        return None;
    }
    Some(opened.fd)
}

// Opens the log.
pub fn open_log(sys: &mut System, o: &Options, files: Files) -> Option<Files> {
    let log = log_of(sys, o)?;
    Some(Files {
        log,
        log_file: log != system::ERROR,
        ..files
    })
}

// What the system tells of a file, where there is one.
fn facts_if(sys: &mut System, fd: Option<Fd>) -> Option<Facts> {
    file_facts::facts_of(sys, fd?)
}

// Input, plan and table are open: sees that nothing would be overwritten by accident.
fn with_inputs(
    sys: &mut System,
    o: &Options,
    input: Fd,
    plan: Option<Fd>,
    table: Option<Fd>,
) -> Option<Files> {
    let facts = file_facts::facts_of(sys, input);
    let plan_facts = facts_if(sys, plan);
    let table_facts = facts_if(sys, table);
    if has_clash(sys, o, facts, plan_facts, table_facts) {
        return None;
    }
    Some(Files {
        input,
        output: None,
        log: system::ERROR,
        passlog: None,
        plan,
        table,
        log_file: false,
        input_bytes: file_facts::size_of(facts),
    })
}

// The file that is named, or what stands in for it where none is named.
fn read_or(sys: &mut System, place: Option<Place>, usual: Option<Fd>) -> Option<Fd> {
    match place {
        Some(place) => open_to_read(sys, place),
        None => usual,
    }
}

// Opens input, plan and table. Where one cannot be opened, or a file that is to be written is another one, that is
// told.
pub fn open_inputs(sys: &mut System, o: &Options) -> Option<Files> {
    programs::fill_low(sys);
    let input = read_or(sys, file_of(o.input), Some(system::INPUT));
    let plan = read_or(sys, o.plan, None);
    let table = read_or(sys, o.table, None);
    let no_plan = o.plan.is_some() && plan.is_none();
    let no_table = o.table.is_some() && table.is_none();
    if no_plan || no_table {
        return None;
    }
    with_inputs(sys, o, input?, plan, table)
}

fn output_of(sys: &mut System, o: &Options) -> Option<Fd> {
    match file_of(o.output) {
        Some(place) => Some(open_to_write(sys, place)?.fd),
        None => Some(system::OUTPUT),
    }
}

// Opens the output last.
pub fn open_output(sys: &mut System, o: &Options, files: Files) -> Option<Files> {
    let output = Some(output_of(sys, o)?);
    Some(Files { output, ..files })
}

// The output of test tones, which need no other file.
pub fn open_tones(sys: &mut System, o: &Options) -> Option<Fd> {
    programs::fill_low(sys);
    output_of(sys, o)
}
