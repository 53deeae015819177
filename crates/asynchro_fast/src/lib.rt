// The five kernels of the polynomial resampler, and the choice among them by the degree.
#![tactic(auto)]

ghost use Rattle.std.specs.Prelude.{◌≡◌, length};
ghost use Rattle.exact.specs.Samples.{linear};
ghost use Rattle.error.specs.Refusals.{said_answer};
ghost use Rattle.asynchro_fast.specs.Degrees.{points_of, before_of};
ghost use Rattle.asynchro_fast.specs.Kernels.{cubic, interp_of, kernel_said};

use error::Refusal;

// The degree of the polynomial. A higher one fits more samples and takes longer.
#[derive(Clone, Copy, Debug, PartialEq, Eq)]
pub enum PolynomialDegree {
    // The one sample, with no fitting.
    Nearest,
    // Fitted to 2 samples.
    Linear,
    // Fitted to 4 samples.
    Cubic,
    // Fitted to 6 samples.
    Quintic,
    // Fitted to 8 samples.
    Septic,
}

// L, the number of samples that the kernel reads. Here and in `points_before` the numbers are the degree's
// own: they follow no rule that could take the place of a row for each.
pub fn nbr_points(degree: PolynomialDegree) -> usize
    ensures { result ≡ points_of degree }
{
    match degree {
        PolynomialDegree::Nearest => 1,
        PolynomialDegree::Linear => 2,
        PolynomialDegree::Cubic => 4,
        PolynomialDegree::Quintic => 6,
        PolynomialDegree::Septic => 8,
    }
}

// b, the number of samples read that stand before the one at fraction 0.
pub fn points_before(degree: PolynomialDegree) -> usize
    ensures { result ≡ before_of degree }
{
    match degree {
        PolynomialDegree::Nearest => 0,
        PolynomialDegree::Linear => 0,
        PolynomialDegree::Cubic => 1,
        PolynomialDegree::Quintic => 2,
        PolynomialDegree::Septic => 3,
    }
}

// Samples at x = -1, 0, 1, 2; by Horner.
fn cubic_of(x: f64, ys: &[f64]) -> f64
    requires { length ys.now ≡ 4 }
    ensures { result ≡ cubic x ys.now }
{
    let third = 1.0 / 3.0;
    let sixth = 1.0 / 6.0;
    let y0 = ys[0];
    let a0 = ys[1];
    let y2 = ys[2];
    let y3 = ys[3];
    let a1 = -third * y0 - 0.5 * a0 + y2 - sixth * y3;
    let a2 = 0.5 * (y0 + y2) - a0;
    let a3 = 0.5 * (a0 - y2) + sixth * (y3 - y0);
    a0 + x * (a1 + x * (a2 + x * a3))
}

// Samples at x = 0, 1.
fn linear_of(x: f64, ys: &[f64]) -> f64
    requires { length ys.now ≡ 2 }
    ensures { result ≡ linear x ys.now }
{
    let y0 = ys[0];
    y0 + x * (ys[1] - y0)
}

// The kernel where the number of samples is right. Only our own crates call this.
pub fn interp(degree: PolynomialDegree, x: f64, ys: &[f64]) -> f64
    requires { length ys.now ≡ points_of degree }
    ensures { result ≡ interp_of degree x ys.now }
{
    match degree {
        PolynomialDegree::Nearest => ys[0],
        PolynomialDegree::Linear => linear_of(x, ys),
        PolynomialDegree::Cubic => cubic_of(x, ys),
        PolynomialDegree::Quintic => rows::quintic_of(x, ys),
        PolynomialDegree::Septic => rows::septic_of(x, ys),
    }
}

// The kernel of a degree at x, or 11 where the number of samples is not the degree's. Every x is
// taken, NaN too.
pub fn interp_answer(degree: PolynomialDegree, x: f64, ys: &[f64]) -> Result<f64, Refusal>
    ensures { said_answer result ≡ kernel_said degree x ys.now }
{
    if ys.len() == nbr_points(degree) {
        Ok(interp(degree, x, ys))
    } else {
        Err(Refusal::Argument)
    }
}

// The five kernels by the names that document 01 ports; all are `interp_answer`.

// Samples at x = -3, -2, .., 4.
pub fn interp_septic(x: f64, ys: &[f64]) -> Result<f64, Refusal>
    ensures { said_answer result ≡ kernel_said PolynomialDegree.Septic x ys.now }
{
    interp_answer(PolynomialDegree::Septic, x, ys)
}

// Samples at x = -2, -1, .., 3.
pub fn interp_quintic(x: f64, ys: &[f64]) -> Result<f64, Refusal>
    ensures { said_answer result ≡ kernel_said PolynomialDegree.Quintic x ys.now }
{
    interp_answer(PolynomialDegree::Quintic, x, ys)
}

// Samples at x = -1, 0, 1, 2.
pub fn interp_cubic(x: f64, ys: &[f64]) -> Result<f64, Refusal>
    ensures { said_answer result ≡ kernel_said PolynomialDegree.Cubic x ys.now }
{
    interp_answer(PolynomialDegree::Cubic, x, ys)
}

// Samples at x = 0, 1.
pub fn interp_lin(x: f64, ys: &[f64]) -> Result<f64, Refusal>
    ensures { said_answer result ≡ kernel_said PolynomialDegree.Linear x ys.now }
{
    interp_answer(PolynomialDegree::Linear, x, ys)
}

// The one sample, whatever x is.
pub fn interp_nearest(x: f64, ys: &[f64]) -> Result<f64, Refusal>
    ensures { said_answer result ≡ kernel_said PolynomialDegree.Nearest x ys.now }
{
    interp_answer(PolynomialDegree::Nearest, x, ys)
}
