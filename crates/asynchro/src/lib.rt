// The ratio state's settings. Document 01: "Ratio changes", "Refusal numbers".
#![tactic(auto)]

ghost use Rattle.std.specs.Prelude.{◌≡◌};
ghost use Rattle.error.specs.Refusals.{said_result};
ghost use Rattle.asynchro.specs.Calls.{
  result_of,
  end_of,
  relative_holds,
  applied,
  set_ratio,
  set_relative,
  chunked,
  set_chunk,
};

use error::Refusal;
use state::{Measured, State};

// What a call on a record leaves: the new record, or on a refusal the record given, and what it answers.
#[derive(Clone, Copy)]
pub struct Outcome<T> {
    pub state: State,
    pub answer: Result<T, Refusal>,
}

// What a call on s leaves, where s stands on a refusal.
fn end_of(s: State, made: Result<State, Refusal>) -> Outcome<()>
    ensures { result_of result ≡ end_of s (said_result made) }
{
    match made {
        Ok(next) => Outcome {
            state: next,
            answer: Ok(()),
        },
        Err(r) => Outcome {
            state: s,
            answer: Err(r),
        },
    }
}

// 1/m <= rel <= m; false for a NaN.
fn relative_ratio_in_bounds(m: f64, rel: f64) -> bool
    ensures { result ≡ relative_holds m rel }
{
    (rel >= 1.0 / m) & (rel <= m)
}

// The new ratio r and its step; `accepted` says that it passes under 4.
fn apply_ratio(s: State, accepted: bool, r: f64, ramp: bool) -> Result<State, Refusal>
    ensures { said_result result ≡ applied s accepted r ramp }
{
    let tested = state::check(s)?;
    if !accepted {
        return Err(Refusal::RatioOutOfBounds(r, s.original, s.m));
    }
    if !bounds::is_ratio(r) {
        return Err(Refusal::RatioBeyondPort(r));
    }
    let step = steps::step_of(r);
    let mut next = s;
    next.target = r;
    next.then = step;
    if !ramp {
        next.current = r;
        next.now = step;
    }
    let set = Measured {
        state: next,
        most: tested.most,
    };
    set.update_lengths()
}

// An absolute setting: refusals 11, 10, 4, 5, 6.
pub fn set_resample_ratio(s: State, r: f64, ramp: bool) -> Outcome<()>
    ensures { result_of result ≡ set_ratio s r ramp }
{
    let accepted = relative_ratio_in_bounds(s.m, r / s.original);
    end_of(s, apply_ratio(s, accepted, r, ramp))
}

// A relative setting, in the same order.
pub fn set_resample_ratio_relative(s: State, rel: f64, ramp: bool) -> Outcome<()>
    ensures { result_of result ≡ set_relative s rel ramp }
{
    let r = s.original * rel;
    let accepted = bounds::above_zero(r) & relative_ratio_in_bounds(s.m, rel);
    end_of(s, apply_ratio(s, accepted, r, ramp))
}

// The chunk n, which stays at or below the construction chunk.
fn apply_chunk(s: State, n: usize) -> Result<State, Refusal>
    ensures { said_result result ≡ chunked s n }
{
    let tested = state::check(s)?;
    if !((1 <= n) & (n <= s.chunk0)) {
        return Err(Refusal::InvalidChunkSize);
    }
    let resized = Measured {
        state: State { chunk: n, ..s },
        most: tested.most,
    };
    resized.update_lengths()
}

// A chunk setting: refusals 11, 10, 3, 6.
pub fn set_chunk_size(s: State, n: usize) -> Outcome<()>
    ensures { result_of result ≡ set_chunk s n }
{
    end_of(s, apply_chunk(s, n))
}
