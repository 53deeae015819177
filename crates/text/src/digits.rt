// Digits as bytes of ASCII.
ghost use Rattle.std.specs.Prelude.{◌≡◌, ◌+◌, ◌<◌, ◌≤◌, length};
ghost use Rattle.std.proofs.Math.Seq.{paste};
ghost use Rattle.text.specs.Digits.{glyph_of, digit_of, hex_digits};

// The byte of a digit, in lower case. Only our own crates call this.
pub fn glyph_of(digit: u64) -> u8
    requires { digit < 16 }
    ensures { result ≡ glyph_of digit }
{
    if digit < 10 {
        48 + digit as u8
    } else {
        87 + digit as u8
    }
}

// The digit of a byte, and 16 of a byte that is none.
pub fn digit_of(byte: u8) -> u64
    ensures { result ≡ digit_of byte }
{
    if byte < 48 {
        return 16;
    }
    if byte < 58 {
        return (byte - 48) as u64;
    }
    if byte < 97 {
        return 16;
    }
    if byte < 103 {
        return (byte - 87) as u64;
    }
    16
}

// Puts the 16 hex digits of n at the place `at` and those after it. Only our own crates call this.
pub fn put_hex(buf: &mut [u8], at: usize, n: u64)
    requires { at + 16 ≤ length buf.old }
    ensures { buf.new ≡ paste buf.old at (hex_digits n) 16 }
{
    for k in 0..16 {
        buf[at + k] = glyph_of((n >> (60 - 4 * k)) % 16);
    }
}
