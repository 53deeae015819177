// What becomes of an accepted block: its frames are written, then its line in the log and its record in the
// pass log.
use crate::kept::kept_of;
use crate::pass::{FirstFrame, Pass, not_recorded, stop_told};
use crate::progress::progressed;
use blocks::Reading;
use cut::KeptFrames;
use options::Files;
use pass_line::{PassLine, Step};
use state::State;
use system::{Fd, System};
use tally::Block;
use written::write_frames;

// The frames of the blocks before were written; of this one some may have been.
fn half_written(sys: &mut System, p: Pass, files: Files) -> Pass {
    let counts = p.counts;
    sys.fail(b"resample: writing the output");
    stop_told(
        sys,
        p,
        files,
        b"of block # a part may have been written, behind the frames out that are told below\n",
        &[counts.blocks],
    )
}

fn not_logged(sys: &mut System, p: Pass) -> Pass {
    sys.fail(b"resample: writing the log");
    p.stopped()
}

// The line of a block: s is the record before it, p the pass with it.
fn log_block(sys: &mut System, log: Fd, block: u64, s: State, p: Pass, index: f64) -> bool {
    let c = p.counts;
    let numbers = [
        block,
        s.input as u64,
        s.output as u64,
        text::bits_of(state::step_now(s)),
        text::bits_of(plan::t_ratio_increment(s)),
        text::bits_of(index),
        c.made,
        c.blocks,
    ];
    pass_line::write_block(
        sys,
        log,
        b"block # in # out # step $ inc $ index $ N # B #",
        &numbers,
        p.line,
    )
}

// The line of a block in the log.
fn logged(sys: &mut System, p: Pass, files: Files, block: u64, s: State, index: f64) -> Pass {
    if log_block(sys, files.log, block, s, p, index) {
        return p;
    }
    not_logged(sys, p)
}

// The record of a block in the pass log.
fn recorded(sys: &mut System, p: Pass, files: Files, block: u64, s: State, index: f64) -> Pass {
    let t = state::step_now(s);
    let d = plan::t_ratio_increment(s);
    if pass_log::write_block(sys, files.passlog, s.output, s.input, t, d, index) {
        return p;
    }
    not_recorded(sys, p, files, block)
}

// The line with an accepted block of the record s.
fn lined(line: PassLine, s: State, index: f64) -> PassLine {
    pass_line::with_block(
        line,
        Step {
            output: s.output,
            input: s.input,
            t: state::step_now(s),
            d: plan::t_ratio_increment(s),
            index,
            ratio: s.current,
            flat: s.current == s.target,
        },
    )
}

// The pass after an accepted block of the record s, whose frames k are written and which left this index.
fn counted(p: Pass, s: State, index: f64, frames: usize, k: KeptFrames) -> Pass {
    let counts = p.counts;
    let d = plan::t_ratio_increment(s);
    let block = Block {
        input: s.input,
        output: s.output,
        given: frames,
        from: k.from,
        to: k.to,
        ramp: d != 0.0,
    };
    let mut q = p;
    q.counts = tally::counted(counts, block);
    q.line = lined(p.line, s, index);
    if p.first.is_none() && k.from < k.to {
        q.first = Some(FirstFrame {
            used: counts.used,
            index: k.index,
        });
    }
    q
}

// Whether a block was the last: the first that had too few frames with --raw, otherwise the first with a frame past
// the input.
fn is_last(raw: bool, s: State, r: Reading, ended: bool, k: KeptFrames) -> bool {
    if raw {
        return r.frames < s.input;
    }
    ended & (k.to < s.output)
}

// Writes an accepted block of the record s, and then its line and its record, each whatever becomes of the
// other: neither log speaks of frames that were not written, or lacks a block for the other's sake.
pub fn accepted(
    sys: &mut System,
    p: Pass,
    s: State,
    index: f64,
    r: Reading,
    raw: bool,
    files: Files,
    output: &[f64],
) -> Pass {
    let c = p.counts;
    let total = c.given.saturating_add(r.frames as u64);
    let k = kept_of(s, raw, c.used, p.ended, total);
    let written = match files.output {
        Some(fd) => write_frames(sys, fd, output, s.channels, s.output, k.from, k.to),
        None => false,
    };
    if !written {
        return half_written(sys, p, files);
    }
    let n = counted(p, s, index, r.frames, k);
    let l = logged(sys, n, files, c.blocks, s, index);
    let q = recorded(sys, l, files, c.blocks, s, index);
    if !q.is_going() {
        return q;
    }
    if is_last(raw, s, r, p.ended, k) {
        return q.finished();
    }
    progressed(sys, q, files, s.channels)
}
