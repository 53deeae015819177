// The questions about a ratio state: each is refused 11 or 10 for a record that no accepted call leaves,
// and for nothing else.
#![tactic(auto)]

ghost use Rattle.std.specs.Prelude.{◌≡◌};
ghost use Rattle.error.specs.Refusals.{said_result};
ghost use Rattle.sizes.specs.Sizes.{frames_of, delay_of};
ghost use Rattle.state.specs.Record.{points_in, step_now_of, step_then_of, max_input_of, max_output_of};
ghost use Rattle.questions.specs.Questions.{asked};

use error::Refusal;
use state::State;

// A question about a record: refusals 11 and 10 only.
fn asked<T: Copy>(s: State, answer: T) -> Result<T, Refusal>
    ensures { said_result result ≡ asked s answer }
{
    state::check(s)?;
    Ok(answer)
}

// The input frames that the next block needs.
pub fn input_frames_next(s: State) -> Result<usize, Refusal>
    ensures { said_result result ≡ asked s s.input }
{
    asked(s, s.input)
}

// The output frames that the next block gives.
pub fn output_frames_next(s: State) -> Result<usize, Refusal>
    ensures { said_result result ≡ asked s s.output }
{
    asked(s, s.output)
}

// The maximum input, from the construction values.
pub fn input_frames_max(s: State) -> Result<usize, Refusal>
    ensures { said_result result ≡ asked s (frames_of (max_input_of s)) }
{
    asked(s, state::max_input_of(s).unwrap_or(0))
}

// The maximum output, from the construction values.
pub fn output_frames_max(s: State) -> Result<usize, Refusal>
    ensures { said_result result ≡ asked s (frames_of (max_output_of s)) }
{
    asked(s, state::max_output_of(s).unwrap_or(0))
}

// The channel count.
pub fn nbr_channels(s: State) -> Result<usize, Refusal>
    ensures { said_result result ≡ asked s s.channels }
{
    asked(s, s.channels)
}

// The output delay in frames, L*r1/2 truncated.
pub fn output_delay(s: State) -> Result<usize, Refusal>
    ensures { said_result result ≡ asked s (delay_of (points_in s) s.current) }
{
    state::check(s)?;
    Ok(sizes::delay_of(state::points_in(s), s.current))
}

// The current ratio.
pub fn resample_ratio(s: State) -> Result<f64, Refusal>
    ensures { said_result result ≡ asked s s.current }
{
    asked(s, s.current)
}

// Document 02, R-2: the input step now, which the record holds.
pub fn input_step_now(s: State) -> Result<f64, Refusal>
    ensures { said_result result ≡ asked s (step_now_of s) }
{
    asked(s, state::step_now(s))
}

// The input step to come: that of the target ratio.
pub fn input_step_then(s: State) -> Result<f64, Refusal>
    ensures { said_result result ≡ asked s (step_then_of s) }
{
    asked(s, state::step_then(s))
}
