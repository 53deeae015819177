// Positions and lengths as text, both in units of 2^-192: exact, and as a decimal that a person can
// read. See specs/Texts.antt for the texts. Each is put by way of a buffer that holds the longest one.
#![tactic(auto)]

mod lengths;
mod limbs;
mod positions;
mod rounding;

ghost use Rattle.std.specs.Prelude.{◌≡◌, length};
ghost use Rattle.big.specs.Value.{value_of};
ghost use Rattle.printer.specs.Put.{put_in, place_after};
ghost use Rattle.position_text.specs.Texts.{length_text, text_of_position, rounded_text, rounded_position};

use big::Big;

// A length, exact: `0.8000..`, with 48 hex digits behind the point.
pub fn put_length(out: &mut [u8], at: usize, n: Big) -> usize
    ensures place { result ≡ place_after (length out.old) at (length (length_text (value_of n))) }
    ensures put { out.new ≡ put_in out.old at (length_text (value_of n)) }
{
    let mut text = [0u8; 69];
    let k = lengths::put_exact(&mut text, 0, n);
    printer::put_bytes(out, at, &text[..k])
}

// A position, exact: `-0.8000..`.
pub fn put_position(out: &mut [u8], at: usize, b: Big) -> usize
    ensures place { result ≡ place_after (length out.old) at (length (text_of_position b)) }
    ensures put { out.new ≡ put_in out.old at (text_of_position b) }
{
    let mut text = [0u8; 70];
    let k = positions::put_exact(&mut text, b);
    printer::put_bytes(out, at, &text[..k])
}

// A length to 15 decimals: `0.5`.
pub fn put_rounded_length(out: &mut [u8], at: usize, n: Big) -> usize
    ensures place { result ≡ place_after (length out.old) at (length (rounded_text (value_of n))) }
    ensures put { out.new ≡ put_in out.old at (rounded_text (value_of n)) }
{
    let mut text = [0u8; 36];
    let k = lengths::put_rounded(&mut text, 0, n);
    printer::put_bytes(out, at, &text[..k])
}

// A position to 15 decimals: `-0.5`.
pub fn put_rounded_position(out: &mut [u8], at: usize, b: Big) -> usize
    ensures place { result ≡ place_after (length out.old) at (length (rounded_position b)) }
    ensures put { out.new ≡ put_in out.old at (rounded_position b) }
{
    let mut text = [0u8; 37];
    let k = positions::put_rounded(&mut text, b);
    printer::put_bytes(out, at, &text[..k])
}
