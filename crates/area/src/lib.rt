// The work on lent areas, "channel after channel": moving samples to the front, reading input, zeroing.
// Only our own crates call these functions, and all but `zero_all` have a `requires`.
#![tactic(auto)]

ghost use Rattle.std.specs.Prelude.{◌≡◌, ◌+◌, ◌*◌, ◌<◌, ◌≤◌, length, replicate};
ghost use Rattle.exact.specs.Doubles.{zero_f};
ghost use Rattle.area.specs.Turns.{one_part};
ghost use Rattle.area.specs.Moves.{moved_in, moved_all, loaded_in, loaded_all};

// The move in the channel c, whose part of the working area is lent.
fn move_part(work: &mut [f64], stride: usize, c: usize, fill: usize, l2: usize)
    requires stride_in_bounds { c * stride + stride ≤ length work.old }
    requires l2_bound { fill + l2 ≤ stride }
    ensures { work.new ≡ one_part (moved_in fill l2) stride c work.old }
{
    let a = c * stride;
    channel::move_front(&mut work[a..a + stride], fill, l2);
}

// The move in every channel, switched on or not.
pub fn move_all(work: &mut [f64], stride: usize, channels: usize, fill: usize, l2: usize)
    requires stride_value { channels * stride ≡ length work.old }
    requires l2_bound { fill + l2 ≤ stride }
    ensures { work.new ≡ moved_all fill l2 stride channels work.old }
{
    for c in 0..channels {
        move_part(work, stride, c, fill, l2);
    }
}

// The reading in the channel c, whose parts of the working area and of the input are lent.
fn load_part(
    work: &mut [f64],
    stride: usize,
    c: usize,
    mask: u64,
    l2: usize,
    input: &[f64],
    share: usize,
    at: usize,
    read: usize,
    needed: usize,
)
    requires c_bound { (c < 64) × (c * stride + stride ≤ length work.old) × (c * share + share ≤ length input.now) }
    requires read_bound { (at + read ≤ share) × (read ≤ needed) × (l2 + needed ≤ stride) }
    ensures { work.new ≡ one_part (loaded_in mask l2 input.now share at read needed) stride c work.old }
{
    let to = c * stride;
    let from = c * share;
    let on = channel::is_on(mask, c);
    channel::load_channel(
        on,
        &mut work[to..to + stride],
        l2,
        &input[from + at..from + share],
        read,
        needed,
    );
}

// The reading in each switched-on channel, from the place `at` of its share of the input.
pub fn load_all(
    work: &mut [f64],
    stride: usize,
    channels: usize,
    mask: u64,
    l2: usize,
    input: &[f64],
    share: usize,
    at: usize,
    read: usize,
    needed: usize,
)
    requires stride_value { (channels * stride ≡ length work.old) × (channels * share ≤ length input.now) × (channels ≤ 64) }
    requires read_bound { (at + read ≤ share) × (read ≤ needed) × (l2 + needed ≤ stride) }
    ensures { work.new ≡ loaded_all mask l2 input.now share at read needed stride channels work.old }
{
    for c in 0..channels {
        load_part(work, stride, c, mask, l2, input, share, at, read, needed);
    }
}

// The whole area becomes zeros.
pub fn zero_all(work: &mut [f64])
    ensures { work.new ≡ replicate (length work.old) zero_f }
{
    work.fill(0.0);
}
