// What is kept of a pass from block to block.
use error::{Carried, Refusal};
use options::{Files, say_refused, say_start};
use pass_line::PassLine;
use schedule::Cursor;
use state::State;
use system::{Fd, System};
use tally::Counts;

// What is set before a block.
#[derive(Clone, Copy)]
pub enum Setting {
    Ratio(f64),
    Ramp(f64),
    Mask(u64),
}

// A line of the plan: what is set, and before which block.
#[derive(Clone, Copy)]
pub struct Due {
    pub block: u64,
    pub setting: Setting,
}

// The next line of the plan: there is none, or it could not be read.
#[derive(Clone, Copy)]
pub enum Line {
    Over,
    Change(Due),
    Bad,
}

// `reached` is one more than the block of the last line that was followed.
#[derive(Clone, Copy)]
pub struct Plan {
    pub line: Line,
    pub reached: u64,
    pub cursor: Cursor,
}

// Where the first frame written stands: the input frames used before its block, and the index.
#[derive(Clone, Copy)]
pub struct FirstFrame {
    pub used: u64,
    pub index: f64,
}

// Whether the pass goes on, came to its end, or stopped before that.
#[derive(Clone, Copy, PartialEq, Eq)]
pub enum Stage {
    Going,
    Finished,
    Stopped,
}

// `held` is a frame of the input that was read ahead; `ended` says that none is behind it. `good` says that
// nothing is wrong with the pass.
#[derive(Clone, Copy)]
pub struct Pass {
    pub counts: Counts,
    pub line: PassLine,
    pub mask: u64,
    pub held: bool,
    pub ended: bool,
    pub first: Option<FirstFrame>,
    pub second: Option<i64>,
    pub stage: Stage,
    pub good: bool,
    pub plan: Plan,
}

// The record and the rest.
#[derive(Clone, Copy)]
pub struct Run {
    pub state: State,
    pub pass: Pass,
}

impl Pass {
    pub fn is_going(&self) -> bool {
        self.stage == Stage::Going
    }

    // Stopped before its end.
    pub fn stopped(self) -> Pass {
        Pass {
            stage: Stage::Stopped,
            good: false,
            ..self
        }
    }

    // Stopped at its end.
    pub fn finished(self) -> Pass {
        Pass {
            stage: Stage::Finished,
            ..self
        }
    }
}

// A line for the operator and, where that is a file, for the log. Whether the log took it.
pub fn tell(sys: &mut System, files: Files, form: &[u8], numbers: &[u64]) -> bool {
    say_start(sys);
    forms::write_form(sys, system::ERROR, form, numbers);
    if !files.log_file {
        return true;
    }
    forms::write_form(sys, files.log, form, numbers)
}

// The floats that a refusal carries, for the log.
fn log_carried(sys: &mut System, log: Fd, carried: Carried) {
    let values = carried.values;
    let numbers = [
        text::bits_of(values[0]),
        text::bits_of(values[1]),
        text::bits_of(values[2]),
    ];
    if carried.count == 1 {
        forms::write_form(sys, log, b"it carries $\n", &numbers);
    }
    if carried.count == 3 {
        forms::write_form(sys, log, b"it carries $, $, $\n", &numbers);
    }
}

// A refusal stops the pass: the operator is told its name and what to do, the log its number and floats.
pub fn refused(sys: &mut System, p: Pass, files: Files, form: &[u8], r: Refusal) -> Pass {
    say_start(sys);
    say_refused(sys, r);
    tell(sys, files, form, &[p.counts.blocks, error::number(r)]);
    if files.log_file {
        log_carried(sys, files.log, error::values(r));
    }
    p.stopped()
}

// A line that stops the pass.
pub fn stop_told(sys: &mut System, p: Pass, files: Files, form: &[u8], numbers: &[u64]) -> Pass {
    tell(sys, files, form, numbers);
    p.stopped()
}

// A record of the block, or of a setting before it, could not be written to the pass log.
pub fn not_recorded(sys: &mut System, p: Pass, files: Files, block: u64) -> Pass {
    sys.fail(b"resample: writing the pass log");
    stop_told(
        sys,
        p,
        files,
        b"the pass log has the records of all blocks before block #; a part of a record may stand at its end\n",
        &[block],
    )
}
