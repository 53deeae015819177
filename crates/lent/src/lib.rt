// One block of a pass on areas of which only a front part is lent. The output's part is zeros before the block,
// so that a muted channel has nothing of an older block.
#![tactic(auto)]

ghost use Rattle.std.specs.Prelude.{◌≡◌, length, replicate};
ghost use Rattle.exact.specs.Doubles.{zero_f};
ghost use Rattle.process.specs.Block.{block_of, block_left};
ghost use Rattle.lent.specs.Lent.{area_length, work_length, lent_of};

use asynchro::Outcome;
use printer::front_of;
use process::Sizes;
use samples::samples_in;
use state::State;

// The samples of so many frames; 0 where the channels are over 16 or the frames over 65,536.
pub fn area_length(channels: usize, frames: usize) -> usize
    ensures { result ≡ area_length channels frames }
{
    if channels > 16 {
        return 0;
    }
    if frames > 65536 {
        return 0;
    }
    samples_in(channels, frames)
}

// The samples of the working area of a record, channels * (maximum input + 2L); 0 of a record that no
// call takes.
pub fn work_length(s: State) -> usize
    ensures { result ≡ work_length s }
{
    match state::check(s) {
        Ok(tested) => s.channels * shape::stride_of(shape::measured(tested)),
        Err(_) => 0,
    }
}

// The block on an output of zeros.
fn run_on_zeros(
    s: State,
    frames: usize,
    mask: u64,
    table: &[f64],
    input: &[f64],
    output: &mut [f64],
    work: &mut [f64],
) -> Outcome<Sizes>
    ensures { block_left result output.new work.new ≡ block_of s frames mask table.now input.now (replicate (length output.old) zero_f) work.old }
{
    area::zero_all(output);
    process::process_into_buffer(s, frames, mask, table, input, output, work)
}

// The block on the table and on the front parts of the areas, each of the length that the record asks for or as much as there is.
pub fn run_block(
    s: State,
    frames: usize,
    mask: u64,
    table: &[f64],
    input: &[f64],
    output: &mut [f64],
    work: &mut [f64],
) -> Outcome<Sizes>
    ensures { block_left result output.new work.new ≡ lent_of s frames mask table.now input.now output.old work.old }
{
    let a = front_of(input, area_length(s.channels, s.input));
    let b = front_of(output, area_length(s.channels, s.output));
    let n = front_of(work, work_length(s));
    run_on_zeros(
        s,
        frames,
        mask,
        table,
        &input[..a],
        &mut output[..b],
        &mut work[..n],
    )
}
