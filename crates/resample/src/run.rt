// The pass: block after block, until the first frame past the input or, with --raw, until the input is over.
use asynchro::Outcome;
use blocks::{Reading, read_frames};
use course::{Pass, Run, accepted, before_block, refused, stop_told, tell};
use options::{Files, Options};
use process::Sizes;
use state::State;
use system::System;

fn not_read(sys: &mut System, p: Pass) -> Pass {
    sys.fail(b"resample: reading the input");
    p.stopped()
}

fn answered(
    sys: &mut System,
    p: Pass,
    s: State,
    outcome: Outcome<Sizes>,
    r: Reading,
    raw: bool,
    files: Files,
    output: &[f64],
) -> Run {
    let pass = match outcome.answer {
        Err(e) => {
            let form = b"block # was refused with number #\n";
            refused(sys, p, files, form, e)
        }
        Ok(_) => accepted(sys, p, s, outcome.state.index, r, raw, files, output),
    };
    Run {
        state: outcome.state,
        pass,
    }
}

// What the input has for the block of the record s, and the pass that knows whether it is over.
fn has_read(sys: &mut System, p: Pass, files: Files, r: Reading) -> Pass {
    let mut q = p;
    q.held = r.held;
    q.ended = p.ended | r.ended;
    if r.left > 0 {
        tell(
            sys,
            files,
            b"the input ends within a frame: its last # bytes are no whole frame and are not used\n",
            &[r.left as u64],
        );
        q.good = false;
    }
    q
}

// Runs a block of the record s on the frames that were read.
fn ran(
    sys: &mut System,
    p: Pass,
    s: State,
    r: Reading,
    raw: bool,
    files: Files,
    table: &[f64],
    input: &[f64],
    output: &mut [f64],
    work: &mut [f64],
) -> Run {
    let outcome = lent::run_block(s, r.frames, p.mask, table, input, output, work);
    answered(sys, p, s, outcome, r, raw, files, output)
}

// One block of the record s, which has the changes before it.
fn block(
    sys: &mut System,
    p: Pass,
    s: State,
    raw: bool,
    files: Files,
    table: &[f64],
    input: &mut [f64],
    held: &mut [f64],
    output: &mut [f64],
    work: &mut [f64],
) -> Run {
    let r = read_frames(sys, files.input, input, held, p.held, s.channels, s.input);
    if r.failed {
        return Run {
            state: s,
            pass: not_read(sys, p),
        };
    }
    let q = has_read(sys, p, files, r);
    if raw & q.ended & (r.frames == 0) & (s.input > 0) {
        return Run {
            state: s,
            pass: q.finished(),
        };
    }
    ran(sys, q, s, r, raw, files, table, input, output, work)
}

fn too_large(sys: &mut System, p: Pass, files: Files) -> Pass {
    stop_told(
        sys,
        p,
        files,
        b"the next block has more than 131072 samples: lower --chunk or --channels\n",
        &[],
    )
}

// The next block, where the changes before it did not stop the pass and the areas hold it.
fn next_block(
    sys: &mut System,
    run: Run,
    raw: bool,
    files: Files,
    table: &[f64],
    input: &mut [f64],
    held: &mut [f64],
    output: &mut [f64],
    work: &mut [f64],
) -> Run {
    let s = run.state;
    let p = run.pass;
    if !p.is_going() {
        return run;
    }
    if lent::area_length(s.channels, s.output) > output.len() {
        return Run {
            state: s,
            pass: too_large(sys, p, files),
        };
    }
    block(sys, p, s, raw, files, table, input, held, output, work)
}

fn turn(
    sys: &mut System,
    before: Run,
    o: &Options,
    files: Files,
    table: &[f64],
    bytes: &mut [u8],
    input: &mut [f64],
    held: &mut [f64],
    output: &mut [f64],
    work: &mut [f64],
) -> Run {
    let run = before_block(sys, before, files, &o.changes, bytes);
    next_block(sys, run, o.raw, files, table, input, held, output, work)
}

// Nothing says that the input ends, so a pass has as many turns as can be counted.
pub fn turns(
    sys: &mut System,
    first: Run,
    o: &Options,
    files: Files,
    table: &[f64],
    bytes: &mut [u8],
    input: &mut [f64],
    held: &mut [f64],
    output: &mut [f64],
    work: &mut [f64],
) -> Pass {
    let mut run = first;
    for _ in 0..u64::MAX {
        if !run.pass.is_going() {
            return run.pass;
        }
        run = turn(sys, run, o, files, table, bytes, input, held, output, work);
    }
    run.pass
}
