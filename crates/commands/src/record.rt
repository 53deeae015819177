// What is kept, and the commands on the record and the working area.
use crate::said::{Said, area, count, ok, refused};
use crate::shown::with_state;
use asynchro::Outcome;
use asynchro_fast::PolynomialDegree;
use error::Refusal;
use kinds::Kind;
use printer::front_of;
use process::Sizes;
use script::values::{
    Values, blend_at, count_at, degree_at, flag_at, float_at, kind_in, number_at, side_at,
};
use sizes::FixedAsync;
use state::State;

// The most samples of an area.
const MOST: usize = 131072;

// The record, and how many samples the working area and the table have.
#[derive(Clone, Copy)]
pub struct Kept {
    pub state: State,
    pub len: usize,
    pub table: usize,
}

// What a command leaves, and what it says.
#[derive(Clone, Copy)]
pub struct Change {
    pub kept: Kept,
    pub said: Said,
}

// What is kept before the first command: a record that fails the StateRecord test, and no sample.
pub fn nothing() -> Kept {
    let kind = Kind::Polynomial(PolynomialDegree::Nearest);
    let fixed = FixedAsync::Input;
    let state = State {
        channels: 0,
        chunk: 0,
        chunk0: 0,
        input: 0,
        output: 0,
        fill: 0,
        index: 0.0,
        original: 0.0,
        current: 0.0,
        target: 0.0,
        now: 0.0,
        then: 0.0,
        m: 0.0,
        kind,
        fixed,
    };
    Kept {
        state,
        len: 0,
        table: 0,
    }
}

pub fn left(kept: Kept, said: Said) -> Change {
    Change { kept, said }
}

// Another record, and what is said.
fn changed(kept: Kept, state: State, said: Said) -> Change {
    let mut then = kept;
    then.state = state;
    left(then, said)
}

fn said_done(outcome: Outcome<()>) -> Said {
    match outcome.answer {
        Ok(()) => with_state(ok(), outcome.state),
        Err(r) => refused(r),
    }
}

// What a setting or a reset leaves: on a refusal the outcome's record is the one that was given.
fn change_of(kept: Kept, outcome: Outcome<()>) -> Change {
    changed(kept, outcome.state, said_done(outcome))
}

// The samples of a working area: channels * (most + 2L), and none where that is too many. Those of a
// table are its rows' points, with no L.
pub fn area_length(channels: usize, most: usize, l: usize) -> usize {
    if channels > MOST {
        return 0;
    }
    if most > MOST {
        return 0;
    }
    if l > MOST {
        return 0;
    }
    let n = channels * (most + 2 * l);
    if n > MOST {
        return 0;
    }
    n
}

// Zeros for a new record; how many there are.
fn zeroed(s: State, work: &mut [f64]) -> usize {
    let most = questions::input_frames_max(s).unwrap_or(0);
    let l = state::points_in(s);
    let n = front_of(work, area_length(s.channels, most, l));
    area::zero_all(&mut work[..n]);
    n
}

pub fn made_poly(values: Values) -> Result<State, Refusal> {
    construction::new_poly(
        float_at(values, 0),
        float_at(values, 1),
        degree_at(values, 2),
        count_at(values, 3),
        count_at(values, 4),
        side_at(values, 5),
    )
}

pub fn made_sinc(values: Values) -> Result<State, Refusal> {
    construction::new_sinc(
        float_at(values, 0),
        float_at(values, 1),
        count_at(values, 2),
        count_at(values, 3),
        blend_at(values, 4),
        count_at(values, 5),
        count_at(values, 6),
        side_at(values, 7),
    )
}

// A new record and its area.
fn begun(kept: Kept, state: State, work: &mut [f64]) -> Change {
    let mut then = kept;
    then.len = zeroed(state, work);
    changed(then, state, with_state(ok(), state))
}

// What a construction leaves.
pub fn new(kept: Kept, made: Result<State, Refusal>, work: &mut [f64]) -> Change {
    match made {
        Err(r) => left(kept, refused(r)),
        Ok(state) => begun(kept, state, work),
    }
}

// Any record, unchecked. Its steps are those of its ratios. Its kind has the first four places.
pub fn rec(kept: Kept, values: Values) -> Change {
    let kind = kind_in(values);
    let fixed = side_at(values, 4);
    let current = float_at(values, 9);
    let target = float_at(values, 10);
    let state = State {
        channels: count_at(values, 5),
        chunk: count_at(values, 6),
        chunk0: count_at(values, 7),
        input: count_at(values, 14),
        output: count_at(values, 15),
        fill: count_at(values, 13),
        index: float_at(values, 12),
        original: float_at(values, 8),
        current,
        target,
        now: steps::step_of(current),
        then: steps::step_of(target),
        m: float_at(values, 11),
        kind,
        fixed,
    };
    changed(kept, state, ok())
}

// Any two steps, unchecked.
pub fn steps(kept: Kept, values: Values) -> Change {
    let mut put = kept.state;
    put.now = float_at(values, 0);
    put.then = float_at(values, 1);
    changed(kept, put, ok())
}

// The first n samples of one area to another; how many there are.
pub fn copied(from: &[f64], n: usize, to: &mut [f64]) -> usize {
    let most = front_of(from, n);
    let len = front_of(to, most);
    channel::load(to, 0, &from[..most], len, len);
    len
}

// The working area, as it is shown.
pub fn show_area(kept: Kept, output: &mut [f64], work: &[f64]) -> Said {
    area(ok(), copied(work, kept.len, output))
}

pub fn set_area(kept: Kept, values: Values, input: &[f64], work: &mut [f64]) -> Change {
    let mut then = kept;
    then.len = copied(input, count_at(values, 0), work);
    left(then, ok())
}

pub fn abs(kept: Kept, values: Values) -> Change {
    let r = float_at(values, 0);
    change_of(
        kept,
        asynchro::set_resample_ratio(kept.state, r, flag_at(values, 1)),
    )
}

pub fn rel(kept: Kept, values: Values) -> Change {
    let r = float_at(values, 0);
    change_of(
        kept,
        asynchro::set_resample_ratio_relative(kept.state, r, flag_at(values, 1)),
    )
}

pub fn chunk(kept: Kept, values: Values) -> Change {
    change_of(
        kept,
        asynchro::set_chunk_size(kept.state, count_at(values, 0)),
    )
}

pub fn reset(kept: Kept, work: &mut [f64]) -> Change {
    let n = front_of(work, kept.len);
    change_of(kept, process::reset(kept.state, &mut work[..n]))
}

// The sizes used, the output area whole, and the record.
fn said_ran(outcome: Outcome<Sizes>, output: usize) -> Said {
    match outcome.answer {
        Ok(sizes) => {
            let used = count(count(ok(), sizes.input), sizes.output);
            with_state(area(used, output), outcome.state)
        }
        Err(r) => refused(r),
    }
}

fn block_of(kept: Kept, outcome: Outcome<Sizes>, output: usize) -> Change {
    changed(kept, outcome.state, said_ran(outcome, output))
}

// How many samples of the table a block is lent: a polynomial takes none.
fn table_for(kept: Kept) -> usize {
    let state = kept.state;
    let kind = state.kind;
    match kind {
        Kind::Polynomial(_) => 0,
        Kind::Sinc(_, _, _) => kept.table,
    }
}

pub fn block(
    kept: Kept,
    values: Values,
    input: &[f64],
    output: &mut [f64],
    work: &mut [f64],
    table: &[f64],
) -> Change {
    let a = front_of(input, count_at(values, 2));
    let b = front_of(output, count_at(values, 3));
    let n = front_of(work, kept.len);
    let t = front_of(table, table_for(kept));
    let outcome = process::process_into_buffer(
        kept.state,
        count_at(values, 0),
        number_at(values, 1),
        &table[..t],
        &input[..a],
        &mut output[..b],
        &mut work[..n],
    );
    block_of(kept, outcome, b)
}
