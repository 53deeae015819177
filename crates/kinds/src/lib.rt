// What a record resamples by: a polynomial, or a sinc over a lent table.
#![tactic(auto)]

ghost use Rattle.std.specs.Prelude.{◌≡◌, true};
ghost use Rattle.kinds.specs.Kinds.{points_of, sinc_holds, kind_holds, table_of};

use asynchro_fast::PolynomialDegree;
use asynchro_sinc::SincInterpolationType;

#[derive(Clone, Copy, Debug, PartialEq, Eq)]
pub enum Kind {
    // A polynomial of this degree.
    Polynomial(PolynomialDegree),
    // A sinc of so many points, with so many rows to each sample (the factor), and its blend.
    Sinc(usize, usize, SincInterpolationType),
}

// L, the number of samples that a kernel or a grid point reads.
pub fn nbr_points(kind: Kind) -> usize
    ensures { result ≡ points_of kind }
{
    match kind {
        Kind::Polynomial(degree) => asynchro_fast::nbr_points(degree),
        Kind::Sinc(points, _, _) => points,
    }
}

// Points even and 8 to 256, factor 3 to 1,024: refusal 11 otherwise.
fn sinc_holds(points: usize, factor: usize) -> bool
    ensures { result ≡ sinc_holds points factor }
{
    (8 <= points) & (points <= 256) & (points % 2 == 0) & (3 <= factor) & (factor <= 1024)
}

pub fn kind_holds(kind: Kind) -> bool
    ensures { result ≡ kind_holds kind }
{
    match kind {
        Kind::Polynomial(_) => true,
        Kind::Sinc(points, factor, _) => sinc_holds(points, factor),
    }
}

// The samples of the table that a block is lent. Only our own crates call this.
pub fn table_length(kind: Kind) -> usize
    requires { kind_holds kind ≡ true }
    ensures { result ≡ table_of kind }
{
    match kind {
        Kind::Polynomial(_) => 0,
        Kind::Sinc(points, factor, _) => points * factor,
    }
}
