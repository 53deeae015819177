// A double as a decimal that a person can read, and beside it the double's bits. See `decimal_of` in
// specs/Texts.antt for the decimal: rounded to 15 decimals, `~0` for what rounds to 0, `?` from 2^64 on.
#![tactic(auto)]

mod digits;
mod rounding;
mod sizes;

ghost use Rattle.std.specs.Prelude.{◌≡◌, length};
ghost use Rattle.printer.specs.Put.{put_in, place_after};
ghost use Rattle.values.specs.Texts.{decimal_of, value_text};

pub use digits::put_number;

// The decimal alone.
pub fn put_plain(line: &mut [u8], at: usize, x: f64) -> usize
    ensures place { result ≡ place_after (length line.old) at (length (decimal_of x)) }
    ensures put { line.new ≡ put_in line.old at (decimal_of x) }
{
    let mut text = [0u8; 37];
    let k = sizes::put_decimal(&mut text, text::bits_of(x));
    printer::put_bytes(line, at, &text[..k])
}

// The decimal, a space, `x` and the 16 digits of the bits.
pub fn put_value(line: &mut [u8], at: usize, x: f64) -> usize
    ensures place { result ≡ place_after (length line.old) at (length (value_text x)) }
    ensures put { line.new ≡ put_in line.old at (value_text x) }
{
    let mut text = [0u8; 55];
    let k = sizes::put_both(&mut text, x);
    printer::put_bytes(line, at, &text[..k])
}
