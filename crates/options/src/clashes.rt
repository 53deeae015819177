// That nothing is overwritten by accident: a file that is written is no other one of the pass, however
// it is named. A terminal or /dev/null may be several of them.
use crate::messages::{say, say_start};
use crate::named::facts_in;
use crate::options::{Options, Target, file_of};
use file_facts::{Facts, is_same};
use system::{Fd, System};

// A file that is written, by the word that names it or as the stream in its place; and what it may be.
#[derive(Clone, Copy)]
enum Writer {
    OutputNames,
    StandardOutput,
    LogNames,
    LogStream,
    PasslogNames,
}

#[derive(Clone, Copy)]
enum Role {
    Input,
    Plan,
    Output,
    Table,
    Log,
    Status,
}

impl Writer {
    fn text(self) -> &'static str {
        match self {
            Writer::OutputNames => "--out names",
            Writer::StandardOutput => "standard output is",
            Writer::LogNames => "--log names",
            Writer::LogStream => "the log's stream is",
            Writer::PasslogNames => "--passlog names",
        }
    }
}

impl Role {
    fn text(self) -> &'static str {
        match self {
            Role::Input => " the input",
            Role::Plan => " the plan",
            Role::Output => " the output",
            Role::Table => " the table",
            Role::Log => " the log",
            Role::Status => " the status file",
        }
    }
}

// Says of two that are the same which they are; whether they are.
fn is_told(sys: &mut System, same: bool, who: Writer, what: Role) -> bool {
    if same {
        say_start(sys);
        say(sys, who.text().as_bytes());
        say(sys, what.text().as_bytes());
        say(sys, b": nothing was written\n");
    }
    same
}

fn output_writer(o: &Options) -> Writer {
    match file_of(o.output) {
        Some(_) => Writer::OutputNames,
        None => Writer::StandardOutput,
    }
}

fn log_writer(o: &Options) -> Writer {
    match file_of(o.log) {
        Some(_) => Writer::LogNames,
        None => Writer::LogStream,
    }
}

// The stream that the log goes to where it has no file.
pub fn log_stream(o: &Options) -> Fd {
    match o.log {
        Some(Target::Standard) => system::OUTPUT,
        _ => system::ERROR,
    }
}

// Whether the pass log is the output, the log or the file for the status; it is told.
pub fn is_passlog_taken(sys: &mut System, o: &Options, passlog: Option<Facts>) -> bool {
    let output = facts_in(sys, file_of(o.output), Some(system::OUTPUT));
    let log = facts_in(sys, file_of(o.log), Some(log_stream(o)));
    let status = facts_in(sys, o.status, None);
    let a = is_told(
        sys,
        file_facts::same_file(passlog, output),
        Writer::PasslogNames,
        Role::Output,
    );
    let b = is_told(
        sys,
        file_facts::same_file(passlog, log),
        Writer::PasslogNames,
        Role::Log,
    );
    let c = is_told(
        sys,
        is_same(passlog, status),
        Writer::PasslogNames,
        Role::Status,
    );
    a | b | c
}

// Whether the pass log is another file of the pass.
fn has_passlog_clash(
    sys: &mut System,
    o: &Options,
    input: Option<Facts>,
    plan: Option<Facts>,
    table: Option<Facts>,
) -> bool {
    let passlog = facts_in(sys, o.passlog, None);
    let a = is_told(
        sys,
        is_same(passlog, input),
        Writer::PasslogNames,
        Role::Input,
    );
    let b = is_told(
        sys,
        is_same(passlog, plan),
        Writer::PasslogNames,
        Role::Plan,
    );
    let c = is_told(
        sys,
        is_same(passlog, table),
        Writer::PasslogNames,
        Role::Table,
    );
    let d = is_passlog_taken(sys, o, passlog);
    a | b | c | d
}

// Whether the output, the log or the pass log is another file of the pass, before any is opened; it is told.
pub fn has_clash(
    sys: &mut System,
    o: &Options,
    input: Option<Facts>,
    plan: Option<Facts>,
    table: Option<Facts>,
) -> bool {
    let output = facts_in(sys, file_of(o.output), Some(system::OUTPUT));
    let log = facts_in(sys, file_of(o.log), Some(log_stream(o)));
    let by_output = output_writer(o);
    let by_log = log_writer(o);
    let a = is_told(sys, is_same(output, input), by_output, Role::Input);
    let b = is_told(sys, is_same(output, plan), by_output, Role::Plan);
    let c = is_told(sys, is_same(log, input), by_log, Role::Input);
    let d = is_told(sys, is_same(log, plan), by_log, Role::Plan);
    let e = is_told(
        sys,
        file_facts::same_file(log, output),
        by_log,
        Role::Output,
    );
    let f = is_told(sys, is_same(output, table), by_output, Role::Table);
    let g = is_told(sys, is_same(log, table), by_log, Role::Table);
    let h = has_passlog_clash(sys, o, input, plan, table);
    a | b | c | d | e | f | g | h
}

// Whether the log, which is open, is the output: two names of a file that was not there before.
pub fn is_output(sys: &mut System, o: &Options, log: Fd) -> bool {
    let output = facts_in(sys, file_of(o.output), Some(system::OUTPUT));
    let facts = file_facts::facts_of(sys, log);
    is_told(
        sys,
        file_facts::same_file(facts, output),
        log_writer(o),
        Role::Output,
    )
}

// Whether the file for the status is another file of the pass.
pub fn is_status_taken(sys: &mut System, o: &Options) -> bool {
    let status = facts_in(sys, o.status, None);
    let a = is_same(status, facts_in(sys, file_of(o.input), Some(system::INPUT)));
    let b = is_same(status, facts_in(sys, o.plan, None));
    let c = is_same(
        status,
        facts_in(sys, file_of(o.output), Some(system::OUTPUT)),
    );
    let d = is_same(status, facts_in(sys, file_of(o.log), Some(log_stream(o))));
    let e = is_same(status, facts_in(sys, o.table, None));
    let f = is_same(status, facts_in(sys, o.passlog, None));
    a | b | c | d | e | f
}
