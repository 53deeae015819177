// Whole numbers out of doubles: floor, ceiling, truncation and round half away from zero for every
// bit pattern, and `split`, the one way to the whole part and the fraction of an index.
//
// The public functions deal with the sign: of a negative x the size -x goes to `part`, `over` or
// `near`, and the sign is put back. So a zero keeps its sign, and a number that goes to zero too.
#![tactic(auto)]

ghost use Rattle.std.specs.Prelude.{◌≡◌, false};
ghost use Rattle.std.specs.Float.Ieee.{lt};
ghost use Rattle.exact.specs.Doubles.{zero_f};
ghost use Rattle.whole.specs.Rounded.{floor_of, ceil_of, trunc_of, round_of, split_of};

// The floor of a double, and what the double is above it.
#[derive(Clone, Copy)]
pub struct Parts {
    pub floor: f64,
    pub frac: f64,
}

// The whole part of an x that is not below 0, from its bits. Above the significand's 52 digits stands
// the exponent, 1023 for 1.0 and 1075 for 2^52, and tells how many of the digits are worth less than
// one: one shift finds them, and they are taken away. From 2^52 on there are none. An infinity goes
// that way too, and -0.0, whose sign stands above the exponent and is read with it. A NaN goes before
// its bits are asked for: the language leaves them open.
fn part(x: f64) -> f64
    requires { lt x zero_f ≡ false }
    ensures { result ≡ trunc_of x }
{
    if x != x {
        return x;
    }
    let bits = f64::to_bits(x);
    let exponent = bits >> 52;
    if exponent < 1023 {
        return 0.0;
    }
    if exponent >= 1075 {
        return x;
    }
    let left = 0xf_ffff_ffff_ffff >> (exponent - 1023);
    f64::from_bits(bits - (bits & left))
}

// The least whole number not below an x that is not below 0: one more where something is left.
fn over(x: f64) -> f64
    requires { lt x zero_f ≡ false }
    ensures { result ≡ ceil_of x }
{
    let y = part(x);
    if y < x {
        return y + 1.0;
    }
    y
}

// The nearest whole number to an x that is not below 0: one more where a half or more is left. What
// is left is a double, so the difference is exact.
fn near(x: f64) -> f64
    requires { lt x zero_f ≡ false }
    ensures { result ≡ round_of x }
{
    let y = part(x);
    if x - y >= 0.5 {
        return y + 1.0;
    }
    y
}

// The greatest whole number not above x.
pub fn floor(x: f64) -> f64
    ensures { result ≡ floor_of x }
{
    if x < 0.0 {
        return -over(-x);
    }
    part(x)
}

// The least whole number not below x.
pub fn ceil(x: f64) -> f64
    ensures { result ≡ ceil_of x }
{
    -floor(-x)
}

// x without its fraction: toward zero.
pub fn trunc(x: f64) -> f64
    ensures { result ≡ trunc_of x }
{
    if x < 0.0 {
        return -part(-x);
    }
    part(x)
}

// The nearest whole number, a half away from zero.
pub fn round(x: f64) -> f64
    ensures { result ≡ round_of x }
{
    if x < 0.0 {
        return -near(-x);
    }
    near(x)
}

// The floor, and the fraction x - floor(x), rounded once: of an x just below a whole number it is
// 1.0, and callers use it so.
pub fn split(x: f64) -> Parts
    ensures { result ≡ split_of x }
{
    let y = floor(x);
    Parts {
        floor: y,
        frac: x - y,
    }
}
