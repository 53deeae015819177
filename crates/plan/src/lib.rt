// What a block and a reset are refused for, and the record that they leave, worked out of the record and
// the areas' lengths alone: no sample is looked at. Only our own crates call these functions.
#![tactic(auto)]

ghost use Rattle.std.specs.Prelude.{◌≡◌};
ghost use Rattle.error.specs.Refusals.{said_result};
ghost use Rattle.plan.specs.Plan.{
  increment_of,
  reach_holds,
  index_after,
  after_block,
  planned,
  restored,
  resetting,
};

use error::Refusal;
use shape::Lent;
use state::{Measured, State, Tested};

// The ramp's increment, of a record that has passed the StateRecord test; 0 where there is no frame to
// use it.
pub fn t_ratio_increment(s: State) -> f64
    ensures { result ≡ increment_of s }
{
    if s.output == 0 {
        return 0.0;
    }
    let n = sizes::float_of(s.output);
    (state::step_then(s) - state::step_now(s)) / n
}

// Refusal 9's test, and the index after the last frame.
fn look(tested: Tested) -> path::Looked
    ensures reach { result.reach ≡ reach_holds tested.state }
    ensures index { result.index ≡ index_after tested.state }
{
    let s = tested.state;
    let t = state::step_now(s);
    let d = t_ratio_increment(s);
    path::look(s.kind, s.input, t, d, s.index, s.output)
}

// The record after a block whose last index is `index`, before its sizes are worked out.
fn after_block(s: State, index: f64) -> State
    requires { index ≡ index_after s }
    ensures { result ≡ after_block s }
{
    let mut next = s;
    next.fill = s.input;
    next.index = index - sizes::float_of(s.input);
    next.current = s.target;
    next.now = s.then;
    next
}

// The first pass: refusals 11, 10, 8, 9, 6, or the record that the block leaves.
pub fn plan(s: State, lent: Lent) -> Result<State, Refusal>
    ensures { said_result result ≡ planned s lent.frames lent.mask lent.table lent.input lent.output lent.work }
{
    let tested = state::check(s)?;
    if !shape::validate_buffers(tested, lent) {
        return Err(Refusal::BufferShape);
    }
    let seen = look(tested);
    if !seen.reach {
        return Err(Refusal::Reach);
    }
    let after = Measured {
        state: after_block(s, seen.index),
        most: tested.most,
    };
    after.update_lengths()
}

// The record as reset restores it, before its sizes are worked out: the fill stays.
fn restored_state(s: State) -> State
    ensures { result ≡ restored s }
{
    let step = steps::step_of(s.original);
    let mut next = s;
    next.chunk = s.chunk0;
    next.index = sizes::start_index(state::points_in(s));
    next.current = s.original;
    next.target = s.original;
    next.now = step;
    next.then = step;
    next
}

// Reset's first pass: refusals 11, 10, 8, 6, or the record that it leaves.
pub fn plan_reset(s: State, work: usize) -> Result<State, Refusal>
    ensures { said_result result ≡ resetting s work }
{
    let tested = state::check(s)?;
    if !shape::work_holds(tested, work) {
        return Err(Refusal::BufferShape);
    }
    let restored = Measured {
        state: restored_state(s),
        most: tested.most,
    };
    restored.update_lengths()
}
