// A double and its bit pattern. There is one NaN: every NaN pattern is read as it, and it is written as
// 7ff8000000000000.
ghost use Rattle.std.specs.Prelude.{◌≡◌};
ghost use Rattle.std.specs.Float.{binary64};
ghost use Rattle.std.specs.Float.Ieee.{to_bits, of_bits};

// The bit pattern of x.
pub fn bits_of(x: f64) -> u64
    ensures { result ≡ to_bits binary64 x }
{
    if x != x {
        return 0x7ff8_0000_0000_0000;
    }
    f64::to_bits(x)
}

// The double of a bit pattern. Without its sign's bit a NaN's pattern is a number above an infinity's.
pub fn of_bits(n: u64) -> f64
    ensures { result ≡ of_bits binary64 n }
{
    if n % 0x8000_0000_0000_0000 > 0x7ff0_0000_0000_0000 {
        return 0.0 / 0.0;
    }
    f64::from_bits(n)
}
