// Frames of an area, written in pieces.
ghost use Rattle.std.specs.Prelude.{true, false, ◌&&◌, ◌≡◌, ◌*◌, ◌-◌, ◌<◌, ◌≤◌, ltb, leb, length};
ghost use Rattle.samples.specs.Frames.{gathered_to};
ghost use Rattle.samples.specs.Counts.{taken, up_to};
ghost use Rattle.written.specs.Pieces.{Written};

use printer::front_of;
use samples::{gather, least, samples_in, takes};
use system::{Fd, System};

// What was written: the samples from number `first` up to `last`, and whether all went well.
#[derive(Clone, Copy)]
struct Writing {
    first: usize,
    last: usize,
    good: bool,
}

// Behind those that were written as many more as the buffer holds: their bytes stand in the buffer when it is
// written.
fn write_piece(
    sys: &mut System,
    fd: Fd,
    bytes: &mut [u8],
    output: &[f64],
    channels: usize,
    share: usize,
    most: usize,
    w: Writing,
) -> Writing
    requires { (0 < channels) × (channels * share ≤ 1048576) × (channels * share ≤ length output.now) × (most ≤ channels * share) × (w.last ≤ most) }
    ensures first_value { (result.first ≡ w.first) × (result.last ≡ up_to (length bytes.old) w.last most) }
    ensures bytes_after { bytes.new ≡ gathered_to channels share w.last output.now bytes.old (result.last - w.last) }
{
    let done = w.last;
    let want = least(bytes.len() / 8, most - done);
    gather(output, channels, share, done, bytes, want);
    let n = front_of(bytes, 8 * want);
    Writing {
        first: w.first,
        last: done + want,
        good: sys.write_all(fd, &bytes[..n]),
    }
}

// All of them from `first` up to `most`, or as many as could be written.
fn write_pieces(
    sys: &mut System,
    fd: Fd,
    bytes: &mut [u8],
    output: &[f64],
    channels: usize,
    share: usize,
    most: usize,
    first: usize,
) -> Writing
    requires { (0 < channels) × (channels * share ≤ 1048576) × (channels * share ≤ length output.now) × (most ≤ channels * share) × (first ≤ most) × (8 ≤ length bytes.old) }
    ensures { Written first most result.first result.last result.good }
{
    let mut w = Writing {
        first,
        last: first,
        good: true,
    };
    while w.good & (w.last < most) {
        w = write_piece(sys, fd, bytes, output, channels, share, most, w);
    }
    w
}

// The samples of the frames from..to.
fn write_range(
    sys: &mut System,
    fd: Fd,
    output: &[f64],
    channels: usize,
    share: usize,
    from: usize,
    to: usize,
) -> Writing
    requires { (0 < channels) × (channels ≤ 16) × (share ≤ 65536) × (channels * share ≤ length output.now) × (from ≤ to) × (to ≤ share) }
    ensures { Written (channels * from) (channels * to) result.first result.last result.good }
{
    let first = samples_in(channels, from);
    let most = samples_in(channels, to);
    let mut bytes = [0u8; 8192];
    write_pieces(sys, fd, &mut bytes, output, channels, share, most, first)
}

// Writes the frames from..to of an area of `share` frames, and says whether all of them were written: none
// are where they have no place in the area.
pub fn write_frames(
    sys: &mut System,
    fd: Fd,
    output: &[f64],
    channels: usize,
    share: usize,
    from: usize,
    to: usize,
) -> bool
    ensures { (taken channels share (length output.now) && (leb from to && leb to share)) ≡ false → result ≡ false }
{
    if !(takes(channels, share, output.len()) & ((from <= to) & (to <= share))) {
        return false;
    }
    let w = write_range(sys, fd, output, channels, share, from, to);
    w.good
}
