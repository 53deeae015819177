// Progress, where the log goes to a file: a line each second.
use crate::pass::Pass;
use options::{Files, say_start};
use system::System;

// The whole frames of so many bytes, where they are few enough to count in percent.
fn frames_in(bytes: u64, channels: usize) -> Option<u64> {
    if channels == 0 || channels > 16 || bytes > 1152921504606846976 {
        return None;
    }
    Some(bytes / (8 * channels as u64))
}

// How much of the input was given, in percent, where its size is known.
fn percent(given: u64, frames: u64) -> Option<u64> {
    if frames == 0 || frames > 1152921504606846976 / 8 || given > frames {
        return None;
    }
    Some(100 * given / frames)
}

fn say_progress(sys: &mut System, p: Pass, files: Files, channels: usize) {
    let c = p.counts;
    let done = match frames_in(files.input_bytes, channels) {
        Some(frames) => percent(c.given, frames),
        None => None,
    };
    say_start(sys);
    match done {
        Some(done) => forms::write_form(
            sys,
            system::ERROR,
            b"#% of the input, # frames out\n",
            &[done, c.written],
        ),
        None => forms::write_form(
            sys,
            system::ERROR,
            b"# frames in, # frames out\n",
            &[c.given, c.written],
        ),
    };
}

// The clock's second.
pub fn second_now(sys: &mut System) -> Option<i64> {
    sys.second()
}

// Says how far the pass is when the clock's second has changed.
pub fn progressed(sys: &mut System, p: Pass, files: Files, channels: usize) -> Pass {
    if !files.log_file {
        return p;
    }
    let now = second_now(sys);
    if now == p.second {
        return p;
    }
    say_progress(sys, p, files, channels);
    let mut q = p;
    q.second = now;
    q
}
