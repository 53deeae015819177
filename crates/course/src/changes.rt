// Changes before a block: those of the words, then those of the plan.
use crate::pass::{Due, Line, Pass, Plan, Run, Setting, not_recorded, refused, stop_told};
use asynchro::Outcome;
use options::{Change, Files};
use schedule::Entry;
use system::{Fd, System};

fn line_of(entry: Entry) -> Line {
    match entry {
        Entry::At(block, ratio) => Line::Change(Due {
            block,
            setting: Setting::Ratio(ratio),
        }),
        Entry::Ramp(block, ratio) => Line::Change(Due {
            block,
            setting: Setting::Ramp(ratio),
        }),
        Entry::Mask(block, mask) => Line::Change(Due {
            block,
            setting: Setting::Mask(mask),
        }),
        Entry::Blank => Line::Bad,
    }
}

// No plan, or none before its first line.
pub fn no_plan() -> Plan {
    Plan {
        line: Line::Over,
        reached: 0,
        cursor: schedule::start(),
    }
}

// The next line of the plan, if there is a plan.
pub fn next_line(sys: &mut System, fd: Option<Fd>, bytes: &mut [u8], plan: Plan) -> Plan {
    let Some(fd) = fd else {
        return plan;
    };
    let step = schedule::next_entry(sys, fd, bytes, plan.cursor);
    let line = match step.next {
        Ok(Some(entry)) => line_of(entry),
        Ok(None) => Line::Over,
        Err(_) => Line::Bad,
    };
    Plan {
        line,
        reached: plan.reached,
        cursor: step.cursor,
    }
}

// The record of an accepted setting: 1 is a ratio, 2 a ramp to it.
fn recorded(sys: &mut System, p: Pass, files: Files, ratio: f64, ramp: bool) -> Pass {
    let kind = if ramp { 2 } else { 1 };
    if pass_log::write_setting(sys, files.passlog, kind, text::bits_of(ratio)) {
        return p;
    }
    not_recorded(sys, p, files, p.counts.blocks)
}

fn settled(
    sys: &mut System,
    p: Pass,
    files: Files,
    ratio: f64,
    ramp: bool,
    outcome: Outcome<()>,
) -> Run {
    let pass = match outcome.answer {
        Ok(()) => recorded(sys, p, files, ratio, ramp),
        Err(r) => {
            let form = b"the ratio change before block # was refused with number #\n";
            refused(sys, p, files, form, r)
        }
    };
    Run {
        state: outcome.state,
        pass,
    }
}

// Sets the ratio, at once or by a ramp.
fn ratio_changed(sys: &mut System, run: Run, files: Files, ratio: f64, ramp: bool) -> Run {
    let numbers = [run.pass.counts.blocks, text::bits_of(ratio)];
    if ramp {
        forms::write_form(
            sys,
            files.log,
            b"before block # ramp to ratio $\n",
            &numbers,
        );
    } else {
        forms::write_form(sys, files.log, b"before block # ratio $\n", &numbers);
    }
    let outcome = asynchro::set_resample_ratio(run.state, ratio, ramp);
    settled(sys, run.pass, files, ratio, ramp, outcome)
}

fn changed(sys: &mut System, run: Run, files: Files, setting: Setting) -> Run {
    match setting {
        Setting::Ratio(ratio) => ratio_changed(sys, run, files, ratio, false),
        Setting::Ramp(ratio) => ratio_changed(sys, run, files, ratio, true),
        Setting::Mask(mask) => {
            let numbers = [run.pass.counts.blocks, mask];
            forms::write_form(sys, files.log, b"before block # mask #\n", &numbers);
            let mut next = run;
            next.pass.mask = mask;
            next
        }
    }
}

// The changes of the words that are for this block.
fn word_changes(sys: &mut System, first: Run, files: Files, changes: &[Option<Change>]) -> Run {
    let mut run = first;
    for change in changes.iter().flatten() {
        if run.pass.is_going() && change.block == run.pass.counts.blocks {
            run = ratio_changed(sys, run, files, change.ratio, change.ramp);
        }
    }
    run
}

// The plan's next line, if it is for this block or could not be read.
fn due_line(p: Pass) -> Line {
    match p.plan.line {
        Line::Change(due) if due.block > p.counts.blocks => Line::Over,
        line => line,
    }
}

// Follows the plan's next line.
fn plan_change(sys: &mut System, run: Run, files: Files, bytes: &mut [u8], due: Due) -> Run {
    let mut next = run;
    next.pass.plan.reached = due.block.saturating_add(1);
    next.pass.plan = next_line(sys, files.plan, bytes, next.pass.plan);
    changed(sys, next, files, due.setting)
}

fn unreadable(sys: &mut System, run: Run, files: Files) -> Run {
    let line = run.pass.plan.cursor.line;
    let mut next = run;
    next.pass = stop_told(
        sys,
        run.pass,
        files,
        b"the plan cannot be read behind line #\n",
        &[line],
    );
    next
}

// All changes before the next block. A plan has fewer lines than the turns are.
pub fn before_block(
    sys: &mut System,
    first: Run,
    files: Files,
    changes: &[Option<Change>],
    bytes: &mut [u8],
) -> Run {
    let mut run = word_changes(sys, first, files, changes);
    for _ in 0..u64::MAX {
        if !run.pass.is_going() {
            return run;
        }
        match due_line(run.pass) {
            Line::Over => return run,
            Line::Bad => return unreadable(sys, run, files),
            Line::Change(due) => run = plan_change(sys, run, files, bytes, due),
        }
    }
    run
}
