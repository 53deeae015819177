// The block run and reset. Two passes: the first (crate plan) works out every refusal and the record to
// come and writes nothing; the second writes.
#![tactic(auto)]

ghost use Rattle.std.specs.Prelude.{◌≡◌, true, length};
ghost use Rattle.state.specs.Record.{is_state};
ghost use Rattle.shape.specs.Shape.{shape_holds};
ghost use Rattle.process.specs.Block.{
  work_after,
  output_after,
  block_of,
  block_left,
  reset_of,
  reset_left,
};

use asynchro::Outcome;
use shape::Lent;
use state::State;

// The two sizes that a block used.
#[derive(Clone, Copy, Debug, PartialEq, Eq)]
pub struct Sizes {
    pub input: usize,
    pub output: usize,
}

// The second pass: what the areas become. The move comes first, in every channel; reading, zeros and
// output follow the mask. `at` and `to` are places in each share of the input and of the output.
fn write(
    s: State,
    frames: usize,
    mask: u64,
    table: &[f64],
    input: &[f64],
    at: usize,
    output: &mut [f64],
    to: usize,
    work: &mut [f64],
)
    requires s_value { is_state s ≡ true }
    requires work_value { shape_holds s frames mask (length table.now) (length input.now) (length output.old) (length work.old) ≡ true }
    requires at_value { (at ≡ 0) × (to ≡ 0) }
    ensures worked { work.new ≡ work_after s frames mask input.now at work.old }
    ensures written { output.new ≡ output_after s mask table.now (work_after s frames mask input.now at work.old) to output.old }
{
    let channels = s.channels;
    let stride = work.len() / channels;
    let l2 = 2 * state::points_in(s);
    let read = shape::frames_to_read(s, frames);
    let share_in = input.len() / channels;
    let share_out = output.len() / channels;
    area::move_all(work, stride, channels, s.fill, l2);
    area::load_all(
        work, stride, channels, mask, l2, input, share_in, at, read, s.input,
    );
    let t = state::step_now(s);
    let d = plan::t_ratio_increment(s);
    let kind = s.kind;
    kernel_frames::run_all(
        kind, table, s.input, mask, work, stride, t, d, s.index, s.output, to, output, share_out,
        channels,
    );
}

// The block run: record by value, frames given, mask, table, input, output and working area. The table of a
// polynomial record is empty.
pub fn process_into_buffer(
    s: State,
    frames: usize,
    mask: u64,
    table: &[f64],
    input: &[f64],
    output: &mut [f64],
    work: &mut [f64],
) -> Outcome<Sizes>
    ensures { block_left result output.new work.new ≡ block_of s frames mask table.now input.now output.old work.old }
{
    let lent = Lent {
        frames,
        mask,
        table: table.len(),
        input: input.len(),
        output: output.len(),
        work: work.len(),
    };
    match plan::plan(s, lent) {
        Err(r) => Outcome {
            state: s,
            answer: Err(r),
        },
        Ok(next) => {
            write(s, frames, mask, table, input, 0, output, 0, work);
            Outcome {
                state: next,
                answer: Ok(Sizes {
                    input: s.input,
                    output: s.output,
                }),
            }
        }
    }
}

// Reset: ratio, chunk, index and sizes as at the start, zeros in the working area, the fill stays.
pub fn reset(s: State, work: &mut [f64]) -> Outcome<()>
    ensures { reset_left result work.new ≡ reset_of s work.old }
{
    match plan::plan_reset(s, work.len()) {
        Err(r) => Outcome {
            state: s,
            answer: Err(r),
        },
        Ok(next) => {
            area::zero_all(work);
            Outcome {
                state: next,
                answer: Ok(()),
            }
        }
    }
}
