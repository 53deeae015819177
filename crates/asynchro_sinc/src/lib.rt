// The sinc side's small arithmetic: which blends of grid points there are, the blends themselves, and what
// each point counts for in one. The parameter record is in the crate sinc_parameters.
#![tactic(auto)]

ghost use Rattle.std.specs.Prelude.{◌≡◌};
ghost use Rattle.exact.specs.Samples.{line_on, linear};
ghost use Rattle.error.specs.Refusals.{said_answer};
ghost use Rattle.asynchro_sinc.specs.Blends.{cubic_on, quad_on, sinc_cubic, sinc_quad, blend_said, cubic_weights, quad_weights, lin_weights};

use error::Refusal;

// How the value between grid points is found.
#[derive(Clone, Copy, Debug, PartialEq, Eq)]
pub enum SincInterpolationType {
    // A cubic through the four nearest grid points.
    Cubic,
    // A quadratic through the three nearest.
    Quadratic,
    // A line through the two nearest.
    Linear,
    // The nearest grid point itself.
    Nearest,
}

// By powers of x: the cubic of the polynomial resampler goes by Horner and has other bits.
pub fn cubic_on(x: f64, y0: f64, y1: f64, y2: f64, y3: f64) -> f64
    ensures { result ≡ cubic_on x y0 y1 y2 y3 }
{
    let third = 1.0 / 3.0;
    let sixth = 1.0 / 6.0;
    let a0 = y1;
    let a1 = -third * y0 - 0.5 * y1 + y2 - sixth * y3;
    let a2 = 0.5 * (y0 + y2) - y1;
    let a3 = 0.5 * (y1 - y2) + sixth * (y3 - y0);
    let x2 = x * x;
    let x3 = x2 * x;
    a0 + a1 * x + a2 * x2 + a3 * x3
}

pub fn quad_on(x: f64, y0: f64, y1: f64, y2: f64) -> f64
    ensures { result ≡ quad_on x y0 y1 y2 }
{
    let a2 = y0 - 2.0 * y1 + y2;
    let a1 = -3.0 * y0 + 4.0 * y1 - y2;
    let a0 = 2.0 * y0;
    let x2 = x * x;
    0.5 * (a0 + a1 * x + a2 * x2)
}

pub fn lin_on(x: f64, y0: f64, y1: f64) -> f64
    ensures { result ≡ line_on x y0 y1 }
{
    y0 + x * (y1 - y0)
}

// The value at x of the cubic polynomial through four samples, at -1, 0, 1 and 2.
pub fn interp_cubic(x: f64, ys: &[f64]) -> Result<f64, Refusal>
    ensures { said_answer result ≡ blend_said 4 sinc_cubic x ys.now }
{
    let [y0, y1, y2, y3] = *ys else {
        return Err(Refusal::Argument);
    };
    Ok(cubic_on(x, y0, y1, y2, y3))
}

// The value at x of the quadratic polynomial through three samples, at 0, 1 and 2.
pub fn interp_quad(x: f64, ys: &[f64]) -> Result<f64, Refusal>
    ensures { said_answer result ≡ blend_said 3 sinc_quad x ys.now }
{
    let [y0, y1, y2] = *ys else {
        return Err(Refusal::Argument);
    };
    Ok(quad_on(x, y0, y1, y2))
}

// The value at x on the line through two samples, at 0 and 1.
pub fn interp_lin(x: f64, ys: &[f64]) -> Result<f64, Refusal>
    ensures { said_answer result ≡ blend_said 2 linear x ys.now }
{
    let [y0, y1] = *ys else {
        return Err(Refusal::Argument);
    };
    Ok(lin_on(x, y0, y1))
}

// What each of the four samples counts for in the cubic at x.
pub fn interp_cubic_weights(x: f64) -> [f64; 4]
    ensures { result ≡ cubic_weights x }
{
    let third = 1.0 / 3.0;
    let sixth = 1.0 / 6.0;
    let x2 = x * x;
    let x3 = x2 * x;
    [
        -third * x + 0.5 * x2 - sixth * x3,
        1.0 - 0.5 * x - x2 + 0.5 * x3,
        x + 0.5 * x2 - 0.5 * x3,
        -sixth * x + sixth * x3,
    ]
}

// What each of the three samples counts for in the quadratic at x.
pub fn interp_quad_weights(x: f64) -> [f64; 3]
    ensures { result ≡ quad_weights x }
{
    let x2 = x * x;
    [
        0.5 * (2.0 - 3.0 * x + x2),
        0.5 * (4.0 * x - 2.0 * x2),
        0.5 * (x2 - x),
    ]
}

// What each of the two samples counts for on the line at x.
pub fn interp_lin_weights(x: f64) -> [f64; 2]
    ensures { result ≡ lin_weights x }
{
    [1.0 - x, x]
}
