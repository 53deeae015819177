// The tests of document 01's "Numbers that bound the build" on single numbers. Their definitions are those
// of crates/sizes/specs/Bounds.antt.
#![tactic(auto)]

ghost use Rattle.std.specs.Prelude.{◌≡◌};
ghost use Rattle.exact.specs.Doubles.{above_zero, at_least_one};
ghost use Rattle.sizes.specs.Bounds.{is_ratio, is_channels, is_chunk, is_index};

pub fn is_ratio(r: f64) -> bool
    ensures { result ≡ is_ratio r }
{
    (r >= 0.00390625) & (r <= 256.0)
}

// Finite and above 0; false for a NaN.
pub fn above_zero(x: f64) -> bool
    ensures { result ≡ above_zero x }
{
    (x > 0.0) & (x < 1.0 / 0.0)
}

// Finite and 1 or more; false for a NaN.
pub fn at_least_one(x: f64) -> bool
    ensures { result ≡ at_least_one x }
{
    (x >= 1.0) & (x < 1.0 / 0.0)
}

pub fn is_channels(n: usize) -> bool
    ensures { result ≡ is_channels n }
{
    (1 <= n) & (n <= 16)
}

pub fn is_chunk(n: usize) -> bool
    ensures { result ≡ is_chunk n }
{
    (1 <= n) & (n <= 65536)
}

pub fn is_index(i: f64) -> bool
    ensures { result ≡ is_index i }
{
    (i > -131072.0) & (i < 131072.0)
}
