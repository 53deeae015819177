// Samples between interleaved bytes and an area, channel after channel. Only our own crates call these
// functions, and each has a `requires`.
ghost use Rattle.std.specs.Prelude.{◌≡◌, ◌+◌, ◌*◌, ◌<◌, ◌≤◌, length};
ghost use Rattle.samples.specs.Frames.{place_of, spread_to, gathered_to};

use crate::counts::least;
use crate::little::{put_sample, sample_at};

// The place in an area of the sample that is number k of interleaved frames.
fn place_of(channels: usize, share: usize, k: usize) -> usize
    requires { (0 < channels) × (k < channels * share) × (channels * share ≤ 1048576) }
    ensures { (result ≡ place_of channels share k) × (result < channels * share) }
{
    (k % channels) * share + k / channels
}

// n samples from the bytes become the samples number `first` and on of the area. A turn places
// one channel's: from one of them to the next the place is one more, with nothing to divide.
pub fn spread(bytes: &[u8], n: usize, area: &mut [f64], channels: usize, share: usize, first: usize)
    requires channels_nonzero { (0 < channels) × (first + n ≤ channels * share) × (channels * share ≤ 1048576) }
    requires share_in_bounds { (channels * share ≤ length area.old) × (8 * n ≤ length bytes.now) }
    ensures { area.new ≡ spread_to channels share first bytes.now area.old n }
{
    for i in 0..least(channels, n) {
        let mut to = place_of(channels, share, first + i);
        let mut j = i;
        while j < n {
            let x = sample_at(bytes, 8 * j);
            area[to] = x;
            to += 1;
            j += channels;
        }
    }
}

// The n samples number `first` and on of the area become bytes, one channel's in a turn.
pub fn gather(area: &[f64], channels: usize, share: usize, first: usize, bytes: &mut [u8], n: usize)
    requires channels_nonzero { (0 < channels) × (first + n ≤ channels * share) × (channels * share ≤ 1048576) }
    requires share_in_bounds { (channels * share ≤ length area.now) × (8 * n ≤ length bytes.old) }
    ensures { bytes.new ≡ gathered_to channels share first area.now bytes.old n }
{
    for i in 0..least(channels, n) {
        let mut from = place_of(channels, share, first + i);
        let mut j = i;
        while j < n {
            put_sample(bytes, 8 * j, area[from]);
            from += 1;
            j += channels;
        }
    }
}
