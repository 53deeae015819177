// The points of the grid nearest to a time t, one to four of them. Between two whole times the grid
// has `factor` points; point number q of the grid is `index` whole times and `subindex` parts of one:
// q = index * factor + subindex. q can pass 2^64, so it is never formed: index and subindex stay apart.
#![tactic(auto)]

ghost use Rattle.std.specs.Prelude.{◌≡◌, ◌+◌, ◌≤◌, true, pos, ◌+ℤ◌, ◌-ℤ◌};
ghost use Rattle.error.specs.Refusals.{said_result};
ghost use Rattle.whole.specs.Rounded.{floor_of};
ghost use Rattle.interpolation.specs.Grid.{in_range, point_of, grid_said, said_time, nearest1, nearest2, nearest3, nearest4};
ghost use Rattle.interpolation.specs.Steps.{inner_of, start_q, Ready, offsets};

use error::Refusal;

// A point of the grid.
#[derive(Clone, Copy)]
pub struct Point {
    pub index: i64,
    pub subindex: u64,
}

// Where q lies: so many whole times, and so many parts after that. A fraction that rounds to 1.0
// makes as many parts as there are in a whole time.
#[derive(Clone, Copy)]
struct Start {
    index: i64,
    parts: u64,
}

// floor(t), and the product (t - floor(t))*factor.
#[derive(Clone, Copy)]
struct Inner {
    index: i64,
    product: f64,
}

// Three and four points take a factor of 3 at least.
const LEAST: u64 = 3;

// |t| is below 2^52, and the factor from `least` to 2^20. A NaN is not in range.
fn in_range(t: f64, factor: u64, least: u64) -> bool
    ensures { result ≡ in_range least t factor }
{
    (t > -4503599627370496.0) & (t < 4503599627370496.0) & (least <= factor) & (factor <= 1048576)
}

// The point `ahead` places after q - 1. The index gives a whole time away first, so that q - 1 has
// parts to be taken from; then each whole time among the parts goes back to the index, two turns at most,
// where a division would cost more.
fn place(start: Start, factor: u64, ahead: u64) -> Point
    requires { Ready factor start × (ahead ≤ 3) }
    ensures { result ≡ point_of factor (start_q factor start +ℤ (pos ahead -ℤ pos 1)) }
{
    let mut index = start.index - 1;
    let mut parts = start.parts + factor + ahead - 1;
    while parts >= factor {
        parts -= factor;
        index += 1;
    }
    Point {
        index,
        subindex: parts,
    }
}

// floor(t) and the product, both from the one split of t.
fn inner_of(t: f64, factor: u64) -> Inner
    requires { in_range 1 t factor ≡ true }
    ensures { result ≡ inner_of t factor }
{
    let s = whole::split(t);
    let index = std::num::truncating_f64_to_i64(s.floor);
    let product = s.frac * std::num::nearest_u64_to_f64(factor);
    Inner { index, product }
}

// The nearest point: the product is made a whole number by the nearest one, a half away from zero.
pub fn get_nearest_time(t: f64, factor: u64) -> Result<Point, Refusal>
    ensures { said_time result ≡ nearest1 t factor }
{
    if !in_range(t, factor, 1) {
        return Err(Refusal::Argument);
    }
    let i = inner_of(t, factor);
    let parts = std::num::truncating_f64_to_u64(whole::round(i.product));
    let index = i.index;
    Ok(place(Start { index, parts }, factor, 1))
}

// The N points from the one `ahead` places after q - 1 on, q by the floor of the product.
fn run_of<const N: usize>(
    t: f64,
    factor: u64,
    least: u64,
    ahead: u64,
) -> Result<[Point; N], Refusal>
    requires { (1 ≤ least) × (ahead + N ≤ 4) }
    ensures { said_result result ≡ grid_said least floor_of (offsets N ahead) t factor }
{
    if !in_range(t, factor, least) {
        return Err(Refusal::Argument);
    }
    let i = inner_of(t, factor);
    let parts = std::num::truncating_f64_to_u64(whole::floor(i.product));
    let index = i.index;
    let start = Start { index, parts };
    let mut points = [Point {
        index: 0,
        subindex: 0,
    }; N];
    // what the contract says of each element written is said by its index
    for k in 0..N {
        points[k] = place(start, factor, ahead + k as u64);
    }
    Ok(points)
}

// The two points q and q + 1. At a fraction that rounds to 1.0 the first is the next whole time.
pub fn get_nearest_times_2(t: f64, factor: u64) -> Result<[Point; 2], Refusal>
    ensures { said_result result ≡ nearest2 t factor }
{
    run_of(t, factor, 1, 1)
}

// The three points from q on.
pub fn get_nearest_times_3(t: f64, factor: u64) -> Result<[Point; 3], Refusal>
    ensures { said_result result ≡ nearest3 t factor }
{
    run_of(t, factor, LEAST, 1)
}

// The four points from q - 1 on.
pub fn get_nearest_times_4(t: f64, factor: u64) -> Result<[Point; 4], Refusal>
    ensures { said_result result ≡ nearest4 t factor }
{
    run_of(t, factor, LEAST, 0)
}
