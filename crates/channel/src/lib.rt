// The work on one channel's share of an area, and the mask. Only our own crates call these functions,
// and each has a `requires`.
#![tactic(auto)]

mod mask;

ghost use Rattle.std.specs.Prelude.{◌≡◌, ◌+◌, ◌≤◌, length, replicate};
ghost use Rattle.std.proofs.Math.Seq.{paste};
ghost use Rattle.exact.specs.Doubles.{zero_f};
ghost use Rattle.channel.specs.Mask.{where_on};
ghost use Rattle.channel.specs.Moves.{moved, loaded};

pub use mask::{is_on, mask_fits};

// The l2 samples from fill on move to the front: no test of the mask.
#[tactic(auto, unfolding(crate::specs::Moves::moved))]
pub fn move_front(work: &mut [f64], fill: usize, l2: usize)
    requires { fill + l2 ≤ length work.old }
    ensures { work.new ≡ moved fill l2 work.old }
{
    work.copy_within(fill..fill + l2, 0);
}

// The first n samples of `from` go to the place `at` and those after it.
fn copy_in(work: &mut [f64], at: usize, from: &[f64], n: usize)
    requires n_in_bounds { at + n ≤ length work.old }
    requires n_in_bounds_2 { n ≤ length from.now }
    ensures { work.new ≡ paste work.old at from.now n }
{
    work[at..at + n].copy_from_slice(&from[..n]);
}

// Zeros go to the place `at` and those after it, n of them.
pub fn zero_from(work: &mut [f64], at: usize, n: usize)
    requires { at + n ≤ length work.old }
    ensures { work.new ≡ paste work.old at (replicate n zero_f) n }
{
    work[at..at + n].fill(0.0);
}

// The read frames go behind the l2 samples at the front, then zeros up to the needed input.
pub fn load(work: &mut [f64], l2: usize, input: &[f64], read: usize, needed: usize)
    requires needed_in_bounds { l2 + needed ≤ length work.old }
    requires read_le_needed { (read ≤ needed) × (read ≤ length input.now) }
    ensures { work.new ≡ loaded l2 input.now read needed work.old }
{
    copy_in(work, l2, input, read);
    zero_from(work, l2 + read, needed - read);
}

// The reading and the zeros, where the channel is switched on.
pub fn load_channel(
    on: bool,
    work: &mut [f64],
    l2: usize,
    input: &[f64],
    read: usize,
    needed: usize,
)
    requires needed_in_bounds { l2 + needed ≤ length work.old }
    requires read_le_needed { (read ≤ needed) × (read ≤ length input.now) }
    ensures { work.new ≡ where_on on (loaded l2 input.now read needed work.old) work.old }
{
    if on {
        load(work, l2, input, read, needed);
    }
}
