// The size of a signed number: its text is a `-` where it is below 0, and the size's digits.
ghost use Rattle.std.specs.Prelude.{◌≡◌, nat_abs};

pub fn size_of(z: i64) -> u64
    ensures { result ≡ nat_abs z }
{
    z.unsigned_abs()
}
