// The plan is read whole before the pass, so that a bad line is told before anything is written.
use crate::changes::{next_line, no_plan};
use crate::pass::Line;
use options::say_start;
use system::{Fd, System};

fn tell_line(sys: &mut System, form: &[u8], line: u64) {
    say_start(sys);
    forms::write_form(sys, system::ERROR, form, &[line]);
}

// Whether every line of the plan is one, and their blocks rise; what is wrong is told. It is then read again
// from its start.
fn is_plan(sys: &mut System, fd: Fd, bytes: &mut [u8]) -> bool {
    let mut plan = no_plan();
    let mut last = 0;
    for _ in 0..u64::MAX {
        plan = next_line(sys, Some(fd), bytes, plan);
        match plan.line {
            Line::Over => return true,
            Line::Bad => {
                let form =
                    b"line # of the plan is none of: at BLOCK RATIO, ramp BLOCK RATIO, mask BLOCK MASK\n";
                tell_line(sys, form, plan.cursor.line);
                return false;
            }
            Line::Change(due) if due.block < last => {
                let form = b"line # of the plan is for an earlier block than the line before it\n";
                tell_line(sys, form, plan.cursor.line);
                return false;
            }
            Line::Change(due) => last = due.block,
        }
    }
    true
}

// Whether there is no plan, or a good one that stands at its start again.
pub fn plan_holds(sys: &mut System, plan: Option<Fd>, bytes: &mut [u8]) -> bool {
    let Some(fd) = plan else {
        return true;
    };
    if !is_plan(sys, fd, bytes) {
        return false;
    }
    if !sys.rewind(fd) {
        sys.fail(b"resample: the plan must be a file that can be read twice");
        return false;
    }
    true
}
