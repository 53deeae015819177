// The state record: its steps and sizes, the StateRecord test, and the one end of every call.
#![tactic(auto)]

ghost use Rattle.std.specs.Prelude.{◌≡◌};
ghost use Rattle.state.specs.Record.{
  step_now_of,
  step_then_of,
  points_in,
  input_of,
  max_input_of,
  max_output_of,
  counts_hold,
  ratios_hold,
  steps_hold,
};

mod checks;
mod measured;

pub use checks::{check, is_state};
use kinds::Kind;
pub use measured::{Measured, Tested};
use sizes::FixedAsync;

// Document 01, "The ratio state". `chunk0` is the construction chunk, `input` and `output` are the
// needed sizes, `fill` the input frames that the working area holds, `m` the largest relative ratio.
// Document 02, R-2: `now` and `then` are the stored steps, 1/current and 1/target. R-4: `kind` stands where
// the degree stood.
#[derive(Clone, Copy)]
pub struct State {
    pub channels: usize,
    pub chunk: usize,
    pub chunk0: usize,
    pub input: usize,
    pub output: usize,
    pub fill: usize,
    pub index: f64,
    pub original: f64,
    pub current: f64,
    pub target: f64,
    pub now: f64,
    pub then: f64,
    pub m: f64,
    pub kind: Kind,
    pub fixed: FixedAsync,
}

// The stored step of the current ratio, and that of the target, for sizes, t and d: nothing is divided.
pub fn step_now(s: State) -> f64
    ensures { result ≡ step_now_of s }
{
    s.now
}

pub fn step_then(s: State) -> f64
    ensures { result ≡ step_then_of s }
{
    s.then
}

// The points L of a record.
pub fn points_in(s: State) -> usize
    ensures { result ≡ points_in s }
{
    let kind = s.kind;
    kinds::nbr_points(kind)
}

pub fn input_of(s: State) -> Option<usize>
    ensures { result ≡ input_of s }
{
    let t1 = step_now(s);
    let t2 = step_then(s);
    let fixed = s.fixed;
    sizes::calculate_input_size(fixed, points_in(s), s.chunk, s.index, t1, t2)
}

pub fn max_input_of(s: State) -> Option<usize>
    ensures { result ≡ max_input_of s }
{
    let fixed = s.fixed;
    sizes::calculate_max_input_size(fixed, points_in(s), s.chunk0, s.original, s.m)
}

pub fn max_output_of(s: State) -> Option<usize>
    ensures { result ≡ max_output_of s }
{
    let fixed = s.fixed;
    sizes::calculate_max_output_size(fixed, s.chunk0, s.original, s.m)
}

pub fn counts_hold(s: State) -> bool
    ensures { result ≡ counts_hold s }
{
    bounds::is_channels(s.channels)
        & bounds::is_chunk(s.chunk)
        & bounds::is_chunk(s.chunk0)
        & (s.chunk <= s.chunk0)
}

pub fn ratios_hold(s: State) -> bool
    ensures { result ≡ ratios_hold s }
{
    bounds::is_ratio(s.original)
        & bounds::is_ratio(s.current)
        & bounds::is_ratio(s.target)
        & bounds::at_least_one(s.m)
}

pub fn steps_hold(s: State) -> bool
    ensures { result ≡ steps_hold s }
{
    steps::is_step(s.now, s.current) & steps::is_step(s.then, s.target)
}
