// What is kept along a pass: the record, and the line of its calls.
use asynchro::Outcome;
use lines::{End, Line, add_block, start_line};
use state::State;

// `good` says that no call was refused: a pass goes on behind a refused one, so it is no Result.
#[derive(Clone, Copy)]
pub struct Account {
    pub state: State,
    pub lined: Result<Line, End>,
    pub good: bool,
}

pub fn opened(s: State) -> Account {
    Account {
        state: s,
        lined: start_line(s.index),
        good: true,
    }
}

fn failed(a: Account) -> Account {
    let mut next = a;
    next.good = false;
    next
}

// The size of an accepted block, which is at most 65,536.
fn size_of(n: usize) -> u32 {
    if n <= 65536 {
        return n as u32;
    }
    65537
}

// The line after a block of the record s, which left the record `next`.
fn grown(l: Line, s: State, next: State, used: usize, n: usize) -> Result<Line, End> {
    let t = state::step_now(s);
    let d = plan::t_ratio_increment(s);
    add_block(l, size_of(n), size_of(used), t, d, next.index)
}

fn added(a: Account, next: State, used: usize, n: usize) -> Account {
    let s = a.state;
    let lined = a.lined;
    match lined {
        Ok(l) => Account {
            state: next,
            lined: grown(l, s, next, used, n),
            good: a.good,
        },
        Err(_) => failed(a),
    }
}

// One block of silence on one channel. A polynomial's table is empty.
pub fn block(a: Account, input: &[f64], output: &mut [f64], work: &mut [f64]) -> Account {
    let s = a.state;
    let o = process::process_into_buffer(s, input.len(), 1, &input[..0], input, output, work);
    match o.answer {
        Ok(z) => added(a, o.state, z.input, z.output),
        Err(_) => failed(a),
    }
}

// The account after a setting.
pub fn set(a: Account, o: Outcome<()>) -> Account {
    match o.answer {
        Ok(()) => Account {
            state: o.state,
            ..a
        },
        Err(_) => failed(a),
    }
}
