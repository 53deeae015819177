// Numbers of samples, and which blocks there are at all.
ghost use Rattle.std.specs.Prelude.{◌≡◌, ◌*◌, ◌≤◌, min};
ghost use Rattle.samples.specs.Counts.{taken};

pub fn least(a: usize, b: usize) -> usize
    ensures { result ≡ min a b }
{
    a.min(b)
}

// The samples of so many frames, of which there are few enough that the product fits. Only our own
// crates call this.
pub fn samples_in(channels: usize, frames: usize) -> usize
    requires { (channels ≤ 16) × (frames ≤ 65536) }
    ensures { (result ≡ channels * frames) × (result ≤ 1048576) }
{
    channels * frames
}

// Whether a block of so many channels and frames has a place in an area of `room` samples.
pub fn takes(channels: usize, share: usize, room: usize) -> bool
    ensures { result ≡ taken channels share room }
{
    if channels == 0 {
        return false;
    }
    if channels > 16 {
        return false;
    }
    if share > 65536 {
        return false;
    }
    samples_in(channels, share) <= room
}
