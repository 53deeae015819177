// The calls that change a record, over a lent record: each takes it out, calls the by-value form
// and stores the record back (`store`). Document 01: "A thin form also changes a state record in place
// through a mutable reference".
#![tactic(auto)]

ghost use Rattle.std.specs.Prelude.{◌≡◌};
ghost use Rattle.asynchro.specs.Calls.{result_of, set_ratio, set_relative, set_chunk};
ghost use Rattle.process.specs.Block.{block_of, block_left, reset_of, reset_left};

use asynchro::Outcome;
use error::Refusal;
use process::Sizes;
use state::State;

// Stores the record of an outcome, and gives its answer.
fn store<T>(s: &mut State, left: Outcome<T>) -> Result<T, Refusal>
    ensures { record { state = s.new; answer = result } ≡ left }
{
    *s = left.state;
    left.answer
}

// An absolute ratio setting.
pub fn set_resample_ratio(s: &mut State, r: f64, ramp: bool) -> Result<(), Refusal>
    ensures { result_of (record { state = s.new; answer = result }) ≡ set_ratio s.old r ramp }
{
    let left = asynchro::set_resample_ratio(*s, r, ramp);
    store(s, left)
}

// A relative ratio setting.
pub fn set_resample_ratio_relative(s: &mut State, rel: f64, ramp: bool) -> Result<(), Refusal>
    ensures { result_of (record { state = s.new; answer = result }) ≡ set_relative s.old rel ramp }
{
    let left = asynchro::set_resample_ratio_relative(*s, rel, ramp);
    store(s, left)
}

// A chunk setting.
pub fn set_chunk_size(s: &mut State, n: usize) -> Result<(), Refusal>
    ensures { result_of (record { state = s.new; answer = result }) ≡ set_chunk s.old n }
{
    let left = asynchro::set_chunk_size(*s, n);
    store(s, left)
}

// The block run.
pub fn process_into_buffer(
    s: &mut State,
    frames: usize,
    mask: u64,
    table: &[f64],
    input: &[f64],
    output: &mut [f64],
    work: &mut [f64],
) -> Result<Sizes, Refusal>
    ensures { block_left (record { state = s.new; answer = result }) output.new work.new ≡ block_of s.old frames mask table.now input.now output.old work.old }
{
    let left = process::process_into_buffer(*s, frames, mask, table, input, output, work);
    store(s, left)
}

// Reset.
pub fn reset(s: &mut State, work: &mut [f64]) -> Result<(), Refusal>
    ensures { reset_left (record { state = s.new; answer = result }) work.new ≡ reset_of s.old work.old }
{
    let left = process::reset(*s, work);
    store(s, left)
}
