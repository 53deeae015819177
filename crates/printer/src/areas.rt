// Areas: the samples' digits run together, or `-` for no sample.
ghost use Rattle.std.specs.Prelude.{◌≡◌, ◌+◌, ◌*◌, ◌≤◌, length};
ghost use Rattle.std.proofs.Math.Seq.{paste};
ghost use Rattle.text.specs.Areas.{samples_text, area_text};
ghost use Rattle.printer.specs.Put.{put_in, place_after};

use crate::bytes::{has_room, put_byte};

// Only this crate calls this function.
fn put_samples(out: &mut [u8], at: usize, xs: &[f64])
    requires { at + 16 * length xs.now ≤ length out.old }
    ensures { out.new ≡ paste out.old at (samples_text xs.now) (16 * length xs.now) }
{
    for (k, x) in xs.iter().enumerate() {
        text::put_hex(out, at + 16 * k, text::bits_of(*x));
    }
}

pub fn put_area(out: &mut [u8], at: usize, xs: &[f64]) -> usize
    ensures place { result ≡ place_after (length out.old) at (length (area_text xs.now)) }
    ensures put { out.new ≡ put_in out.old at (area_text xs.now) }
{
    if xs.is_empty() {
        return put_byte(out, at, 45);
    }
    let n = 16 * xs.len();
    if !has_room(out, at, n) {
        return out.len();
    }
    put_samples(out, at, xs);
    at + n
}
