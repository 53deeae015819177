// The line of a pass: its exact and its stored position from the construction on, block by block, what the
// rounding of 1/ratio adds beside them, and how both are told. That each function is safe and ends is proved;
// what a line holds is `lines`' to prove.
#![tactic(auto)]

mod numbers;
mod quotients;
mod told;

use big::Big;
use lines::{End, Line};
pub use told::{tell_line, write_block};

// What a line ended with, and whether the last block ended it.
#[derive(Clone, Copy)]
pub struct Ended {
    pub end: End,
    pub now: bool,
}

// The line as it stands, or as it stood before the block that it ended with, where it began, and what it ended
// with, if it has ended. `rounding` is the sum of n*(t - 1/r) over the blocks of n frames with no ramp pending,
// of the ratio r and its step t; the blocks with a ramp pending, and their frames, are counted beside it.
#[derive(Clone, Copy)]
pub struct PassLine {
    pub line: Line,
    pub start: Big,
    pub ended: Option<Ended>,
    pub rounding: f64,
    pub ramp_blocks: u64,
    pub ramp_frames: u64,
}

// An accepted block: its sizes, its starting step, its increment, the index that it left, its ratio, and
// whether no ramp is pending.
#[derive(Clone, Copy)]
pub struct Step {
    pub output: usize,
    pub input: usize,
    pub t: f64,
    pub d: f64,
    pub index: f64,
    pub ratio: f64,
    pub flat: bool,
}

fn pass_line(line: Line, ended: Option<Ended>) -> PassLine {
    PassLine {
        line,
        start: line.exactly,
        ended,
        rounding: 0.0,
        ramp_blocks: 0,
        ramp_frames: 0,
    }
}

// A line of nothing, for a start that is no position.
fn no_line() -> Line {
    Line {
        frames: 0,
        blocks: 0,
        inputs: 0,
        exactly: big::of_u64(0),
        stored: big::of_u64(0),
        most: big::of_u64(0),
    }
}

// The line of a construction that left this index.
pub fn started(index: f64) -> PassLine {
    match lines::start_line(index) {
        Ok(line) => pass_line(line, None),
        Err(end) => pass_line(no_line(), Some(Ended { end, now: false })),
    }
}

// The line that an accepted block gives; a size of 2^32 or more, which no block has, would leave its range.
fn added(l: Line, s: Step) -> Result<Line, End> {
    let output = u32::try_from(s.output).map_err(|_| End::Range)?;
    let input = u32::try_from(s.input).map_err(|_| End::Range)?;
    lines::add_block(l, output, input, s.t, s.d, s.index)
}

// The pass with the line that a block gave, and the block's part of the rounding.
fn grown(p: PassLine, line: Line, s: Step) -> PassLine {
    let mut q = p;
    q.line = line;
    if s.flat {
        q.rounding = p.rounding + quotients::rounding_of(s.output as u64, s.t, s.ratio);
    } else {
        q.ramp_blocks = tally::plus(p.ramp_blocks, 1);
        q.ramp_frames = tally::plus(p.ramp_frames, s.output as u64);
    }
    q
}

// The line with an accepted block. One that has ended stays as it is.
pub fn with_block(p: PassLine, s: Step) -> PassLine {
    let ended = match p.ended {
        Some(before) => Ended {
            end: before.end,
            now: false,
        },
        None => match added(p.line, s) {
            Ok(next) => return grown(p, next, s),
            Err(end) => Ended { end, now: true },
        },
    };
    PassLine {
        ended: Some(ended),
        ..p
    }
}
