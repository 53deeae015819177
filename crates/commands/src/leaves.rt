// The small arithmetic: kernels, blends and their weights, grid points, cutoffs.
use crate::said::{Said, Word, float, joined, ok, refused, said_of, signed};
use asynchro_fast::PolynomialDegree;
use error::Refusal;
use interpolation::Point;
use printer::front_of;
use script::values::{Values, count_at, degree_at, float_at, number_at, window_at};

fn kernel_of(degree: PolynomialDegree, x: f64, ys: &[f64]) -> Result<f64, Refusal> {
    match degree {
        PolynomialDegree::Nearest => asynchro_fast::interp_nearest(x, ys),
        PolynomialDegree::Linear => asynchro_fast::interp_lin(x, ys),
        PolynomialDegree::Cubic => asynchro_fast::interp_cubic(x, ys),
        PolynomialDegree::Quintic => asynchro_fast::interp_quintic(x, ys),
        PolynomialDegree::Septic => asynchro_fast::interp_septic(x, ys),
    }
}

pub fn kernel(values: Values, input: &[f64]) -> Said {
    let x = float_at(values, 1);
    let n = front_of(input, count_at(values, 2));
    said_of(kernel_of(degree_at(values, 0), x, &input[..n]))
}

// A sinc-side blend of so many samples.
pub fn blend<F: Fn(f64, &[f64]) -> Result<f64, Refusal>>(
    by: F,
    values: Values,
    input: &[f64],
) -> Said
    requires { F.IsAlwaysCallable by }
{
    let x = float_at(values, 0);
    let n = front_of(input, count_at(values, 1));
    said_of(by(x, &input[..n]))
}

// The weights of a blend, an area: a loop over two, three or four of them would be no shorter.
pub fn weights_lin(values: Values) -> Said {
    let w = asynchro_sinc::interp_lin_weights(float_at(values, 0));
    joined(float(ok(), w[0]), w[1])
}

pub fn weights_quad(values: Values) -> Said {
    let w = asynchro_sinc::interp_quad_weights(float_at(values, 0));
    joined(joined(float(ok(), w[0]), w[1]), w[2])
}

pub fn weights_cubic(values: Values) -> Said {
    let w = asynchro_sinc::interp_cubic_weights(float_at(values, 0));
    joined(joined(joined(float(ok(), w[0]), w[1]), w[2]), w[3])
}

fn put_point(said: &mut Said, p: Point) {
    said.put(signed(p.index));
    said.put(Word::Whole(p.subindex));
}

// The points of the grid that lie nearest, as many as were asked for.
fn points<const N: usize>(answer: Result<[Point; N], Refusal>) -> Said {
    match answer {
        Ok(nearest) => {
            let mut said = ok();
            for p in &nearest {
                put_point(&mut said, *p);
            }
            said
        }
        Err(r) => refused(r),
    }
}

pub fn near(values: Values) -> Said {
    let n = number_at(values, 0);
    let t = float_at(values, 1);
    let factor = number_at(values, 2);
    match n {
        1 => points(interpolation::get_nearest_time(t, factor).map(|p| [p])),
        2 => points(interpolation::get_nearest_times_2(t, factor)),
        3 => points(interpolation::get_nearest_times_3(t, factor)),
        _ => points(interpolation::get_nearest_times_4(t, factor)),
    }
}

pub fn cutoff(values: Values) -> Said {
    said_of(windows::calculate_cutoff(count_at(values, 0), window_at(values, 1)))
}
