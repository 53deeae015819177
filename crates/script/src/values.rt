// The numbers of a line's words, as the calls take them.
use asynchro_fast::PolynomialDegree;
use asynchro_sinc::SincInterpolationType;
use kinds::Kind;
use sizes::FixedAsync;
use windows::WindowFunction;

// A place for each word after the command; those behind the last hold 0. Whether it holds a float's bits, a count
// or the number of a choice is what the command says: an enum would be opened at each use, and be no plainer.
pub type Values = [u64; 16];

pub fn number_at(values: Values, k: usize) -> u64 {
    if k < 16 { values[k] } else { 0 }
}

fn as_count(n: u64) -> usize {
    n as usize
}

pub fn count_at(values: Values, k: usize) -> usize {
    as_count(number_at(values, k))
}

pub fn float_at(values: Values, k: usize) -> f64 {
    text::of_bits(number_at(values, k))
}

pub fn flag_at(values: Values, k: usize) -> bool {
    number_at(values, k) == 1
}

fn degree_of(l: u64) -> PolynomialDegree {
    match l {
        1 => PolynomialDegree::Nearest,
        2 => PolynomialDegree::Linear,
        4 => PolynomialDegree::Cubic,
        6 => PolynomialDegree::Quintic,
        _ => PolynomialDegree::Septic,
    }
}

pub fn degree_at(values: Values, k: usize) -> PolynomialDegree {
    degree_of(number_at(values, k))
}

fn blend_of(n: u64) -> SincInterpolationType {
    match n {
        1 => SincInterpolationType::Nearest,
        2 => SincInterpolationType::Linear,
        3 => SincInterpolationType::Quadratic,
        _ => SincInterpolationType::Cubic,
    }
}

pub fn blend_at(values: Values, k: usize) -> SincInterpolationType {
    blend_of(number_at(values, k))
}

// The kind of a record, in the first four places: L of a polynomial, or 0 and a sinc's points, factor and
// blend.
pub fn kind_in(values: Values) -> Kind {
    if number_at(values, 0) > 0 {
        return Kind::Polynomial(degree_at(values, 0));
    }
    Kind::Sinc(
        count_at(values, 1),
        count_at(values, 2),
        blend_at(values, 3),
    )
}

pub fn side_at(values: Values, k: usize) -> FixedAsync {
    if flag_at(values, k) {
        FixedAsync::Output
    } else {
        FixedAsync::Input
    }
}

fn window_of(n: u64) -> WindowFunction {
    match n {
        0 => WindowFunction::Blackman,
        1 => WindowFunction::Blackman2,
        2 => WindowFunction::BlackmanHarris,
        3 => WindowFunction::BlackmanHarris2,
        4 => WindowFunction::Hann,
        _ => WindowFunction::Hann2,
    }
}

pub fn window_at(values: Values, k: usize) -> WindowFunction {
    window_of(number_at(values, k))
}
