// The shape of what a block and a reset are lent: refusal 8, worked out of the record and the areas' lengths
// alone. Only our own crates call these functions.
#![tactic(auto)]

ghost use Rattle.std.specs.Prelude.{◌≡◌};
ghost use Rattle.shape.specs.Shape.{read_of, stride_of, work_holds, table_holds, share_holds, shape_holds};

use state::{Measured, State, Tested};

// The smaller of the given count and the needed input.
pub fn frames_to_read(s: State, frames: usize) -> usize
    ensures { result ≡ read_of s frames }
{
    frames.min(s.input)
}

// A tested record as a measured one.
pub fn measured(tested: Tested) -> Measured
    ensures { result.state ≡ tested.state }
{
    Measured {
        state: tested.state,
        most: tested.most,
    }
}

// Samples of one channel in the working area.
pub fn stride_of(measured: Measured) -> usize
    ensures { result ≡ stride_of measured.state }
{
    measured.most.unwrap_or(0) + 2 * state::points_in(measured.state)
}

// The working area is of exactly the right length.
pub fn work_holds(tested: Tested, work: usize) -> bool
    ensures { result ≡ work_holds tested.state work }
{
    work == tested.state.channels * stride_of(measured(tested))
}

// The table is of exactly the right length.
fn table_holds(tested: Tested, table: usize) -> bool
    ensures { result ≡ table_holds tested.state table }
{
    table == kinds::table_length(tested.state.kind)
}

// A lent area is whole shares, each of at least so many frames.
fn share_holds(tested: Tested, area: usize, frames: usize) -> bool
    ensures { result ≡ share_holds tested.state area frames }
{
    let channels = tested.state.channels;
    (area % channels == 0) & (frames <= area / channels)
}

// What a block is lent: the frames given, the mask, and the lengths of the table and of the three areas.
#[derive(Clone, Copy, Debug, PartialEq, Eq)]
pub struct Lent {
    pub frames: usize,
    pub mask: u64,
    pub table: usize,
    pub input: usize,
    pub output: usize,
    pub work: usize,
}

// Refusal 8's test.
pub fn validate_buffers(tested: Tested, lent: Lent) -> bool
    ensures { result ≡ shape_holds tested.state lent.frames lent.mask lent.table lent.input lent.output lent.work }
{
    let s = tested.state;
    share_holds(tested, lent.input, frames_to_read(s, lent.frames))
        & share_holds(tested, lent.output, s.output)
        & work_holds(tested, lent.work)
        & table_holds(tested, lent.table)
        & channel::mask_fits(lent.mask, s.channels)
}
