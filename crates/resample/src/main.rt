// Samples in, samples out, at another rate: the words of the command line say how (`--help`).
#![tactic(auto)]

mod run;
mod setup;

use blocks::Reading;
use course::Run;
use options::{Bad, Files, Options, Task, say, say_start};
use state::State;
use system::System;

// The pass itself. Its areas have up to 131,072 samples each.
fn pass_over(
    sys: &mut System,
    first: Run,
    o: &Options,
    files: Files,
    table: &[f64],
    held: &mut [f64],
    bytes: &mut [u8],
) -> bool {
    let mut input = [0.0; 131072];
    let mut output = [0.0; 131072];
    let mut work = [0.0; 131072];
    let end = run::turns(
        sys,
        first,
        o,
        files,
        table,
        bytes,
        &mut input,
        held,
        &mut output,
        &mut work,
    );
    course::ended_well(sys, end, o, files)
}

// Whether the input has a frame, and no mark of another kind of file.
fn input_holds(sys: &mut System, r: Reading, force: bool) -> bool {
    if r.failed {
        sys.fail(b"resample: reading the input");
        return false;
    }
    if r.riff & !force {
        say_start(sys);
        say(
            sys,
            b"the input begins with RIFF, as WAV files do, and not with samples: --force takes it as samples all the same\n",
        );
        return false;
    }
    true
}

// An input without a whole frame gives an output without one, and is told.
fn tell_empty(sys: &mut System, left: usize) {
    say_start(sys);
    forms::write_form(
        sys,
        system::ERROR,
        b"the input has no whole frame (it has # bytes), so there is no output\n",
        &[left as u64],
    );
}

// The pass log, with the record of the construction of s.
fn recorded(sys: &mut System, s: State, o: &Options, files: Files) -> Option<Files> {
    let opened = options::open_passlog(sys, o, files)?;
    if !pass_log::write_construction(sys, opened.passlog, s.index) {
        sys.fail(b"resample: writing the pass log");
        return None;
    }
    Some(opened)
}

// The pass log, the log and its head, then the output, so that no output is emptied for a log that cannot be
// written.
fn opened(sys: &mut System, s: State, o: &Options, inputs: Files, table: &[f64]) -> Option<Files> {
    let files = recorded(sys, s, o, inputs)?;
    let logged = options::open_log(sys, o, files)?;
    let head = course::write_head(sys, o, logged, s, setup::mask_of(o));
    if !(head & pass_table::write_line(sys, o, logged.log, table)) {
        sys.fail(b"resample: writing the log");
        return None;
    }
    options::open_output(sys, o, logged)
}

// Opens what is written, and runs the pass.
fn begin(
    sys: &mut System,
    s: State,
    o: &Options,
    inputs: Files,
    r: Reading,
    table: &[f64],
    held: &mut [f64],
    bytes: &mut [u8],
) -> bool {
    let Some(files) = opened(sys, s, o, inputs, table) else {
        return false;
    };
    if !r.held {
        tell_empty(sys, r.left);
        return false;
    }
    let p = setup::first_pass(sys, s.index, setup::mask_of(o), files, bytes);
    pass_over(sys, Run { state: s, pass: p }, o, files, table, held, bytes)
}

// The pass of a record. The table is made, and the input's first frame and the plan are looked at, before
// anything is written.
fn pass_of(sys: &mut System, s: State, o: &Options, table: &mut [f64]) -> bool {
    let Some(files) = options::open_inputs(sys, o) else {
        return false;
    };
    if !pass_table::is_made(sys, o, files.table, table) {
        return false;
    }
    let mut bytes = [0u8; 1024];
    if !course::plan_holds(sys, files.plan, &mut bytes) {
        return false;
    }
    let mut held = [0.0; 16];
    let r = blocks::read_first(sys, files.input, &mut held, s.channels);
    if !input_holds(sys, r, o.force) {
        return false;
    }
    begin(sys, s, o, files, r, table, &mut held, &mut bytes)
}

// A table has up to 262,144 entries; a polynomial has none.
fn pass_on(sys: &mut System, o: &Options) -> bool {
    let Ok(s) = setup::made_told(sys, o) else {
        return false;
    };
    if !setup::is_ready(sys, s, setup::mask_of(o), 131072) {
        return false;
    }
    let mut area = [0.0; 262144];
    let n = printer::front_of(&area, pass_table::entries_of(o));
    pass_of(sys, s, o, &mut area[..n])
}

fn tones_on(sys: &mut System, o: &Options, frames: u64) -> bool {
    match options::open_tones(sys, o) {
        Some(fd) => tones::write_tones(sys, frames, fd),
        None => false,
    }
}

// Does what the words ask for; whether it went well.
fn act(sys: &mut System, o: &Options, task: Task) -> bool {
    match task {
        Task::Help => options::help(sys),
        Task::Version => options::write_version(sys, system::OUTPUT),
        Task::Tones(frames) => tones_on(sys, o, frames),
        Task::Pass => pass_on(sys, o),
    }
}

// The status: 2 where the words are bad, 1 where something went wrong.
fn status_of(sys: &mut System, o: &Options, task: Result<Task, Bad>) -> u64 {
    match task {
        Err(Bad) => 2,
        Ok(task) => { if act(sys, o, task) { 0 } else { 1 } }
    }
}

fn main(rt: HostRuntime) {
    let mut system = System::new(rt);
    let sys = &mut system;
    let mut o = Options::none();
    let task = options::read_words(sys, &mut o);
    let status = status_of(sys, &o, task);
    options::write_status(sys, &o, status);
}
