// A sample as eight bytes, the lowest first. Only our own crates call these functions, and each has a
// `requires`.
ghost use Rattle.std.specs.Prelude.{◌≡◌, ◌+◌, ◌*◌, ◌<◌, ◌≤◌, ◌^◌, length};
ghost use Rattle.std.specs.Float.{binary64};
ghost use Rattle.std.specs.Float.Ieee.{to_bits};
ghost use Rattle.std.proofs.Math.Seq.{paste};
ghost use Rattle.samples.specs.Samples.{sample_at, bytes_from, eight_of};

// The sample whose bytes start at `at`.
pub fn sample_at(bytes: &[u8], at: usize) -> f64
    requires { at + 8 ≤ length bytes.now }
    ensures { result ≡ sample_at bytes.now at }
{
    let mut eight = [0u8; 8];
    eight.copy_from_slice(&bytes[at..at + 8]);
    text::of_bits(u64::from_le_bytes(eight))
}

// Puts the lowest `width` bytes of n at the place `at` and those after it.
pub fn put_little(bytes: &mut [u8], at: usize, n: u64, width: usize)
    requires { (at + width ≤ length bytes.old) × (width ≤ 8) }
    ensures { bytes.new ≡ paste bytes.old at (bytes_from n 0 width) width }
{
    for k in 0..width {
        bytes[at + k] = ((n >> (8 * k)) % 256) as u8;
    }
}

// Puts the bytes of x at the place `at` and those after it.
pub fn put_sample(bytes: &mut [u8], at: usize, x: f64)
    requires { at + 8 ≤ length bytes.old }
    ensures { bytes.new ≡ paste bytes.old at (eight_of (to_bits binary64 x)) 8 }
{
    put_little(bytes, at, text::bits_of(x), 8);
}
