// Numbers in decimal, and floats by their bits.
ghost use Rattle.std.specs.Prelude.{◌≡◌, length};
ghost use Rattle.std.specs.Float.{binary64};
ghost use Rattle.std.specs.Float.Ieee.{to_bits};
ghost use Rattle.text.specs.Digits.{hex_digits};
ghost use Rattle.printer.specs.Put.{put_in, place_after, decimal_text};

use crate::bytes::{has_room, put_bytes};

// The 16 digits of a float's bits.
pub fn put_bits(out: &mut [u8], at: usize, x: f64) -> usize
    ensures place { result ≡ place_after (length out.old) at 16 }
    ensures put { out.new ≡ put_in out.old at (hex_digits (to_bits binary64 x)) }
{
    if !has_room(out, at, 16) {
        return out.len();
    }
    text::put_hex(out, at, text::bits_of(x));
    at + 16
}

pub fn put_decimal(out: &mut [u8], at: usize, n: u64) -> usize
    ensures place { result ≡ place_after (length out.old) at (length (decimal_text n)) }
    ensures put { out.new ≡ put_in out.old at (decimal_text n) }
{
    let mut digits = [0u8; 20];
    let k = io::decimal(n, &mut digits);
    put_bytes(out, at, &digits[..k])
}
