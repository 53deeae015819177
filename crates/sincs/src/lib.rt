// The table of windowed sincs, in an area that is lent: the sum of its values first, the entries after it.
#![tactic(auto)]

ghost use Rattle.std.specs.Prelude.{◌≡◌, ◌*◌, ◌<◌, ◌≤◌, true, ◌&&◌, length};
ghost use Rattle.whole.specs.Small.{small};
ghost use Rattle.window_points.specs.Filled.{listed, built_left};
ghost use Rattle.sincs.specs.Sinc.{steps_of, tiny, sinc_of, place_of, value_at};
ghost use Rattle.sincs.specs.Table.{sum_to, sum_of, value_no, entry_at, product_holds, cutoff_holds, sincs_of};

use error::Refusal;
use quarter::QuarterWave;
use windows::WindowFunction;

// |v| is below 2^-27. A NaN is not.
fn is_tiny(v: f64) -> bool
    ensures { result ≡ tiny v }
{
    (v > -7.450580596923828e-9) & (v < 7.450580596923828e-9)
}

// sinc(v) = sin(pi*v)/(pi*v), over the quarter wave that is lent.
fn sinc(wave: QuarterWave, v: f64) -> f64
    requires { small (steps_of v) ≡ true }
    ensures { result ≡ sinc_of v }
{
    if is_tiny(v) {
        return 1.0;
    }
    wave::sine_at(wave.entries(), 2048.0 * v) / (v * 3.141592653589793)
}

// Where value x of `total` stands in the sinc: at few enough steps of the wave.
fn place_of(total: usize, factor: usize, cutoff: f64, x: usize) -> f64
    requires x_bound { (x < total) × (total ≤ 65536) }
    requires factor_bound { (0 < factor) × (factor ≤ 65536) }
    requires cutoff_value { cutoff_holds cutoff ≡ true }
    ensures value { result ≡ place_of total factor cutoff x }
    ensures steps { small (steps_of result) ≡ true }
{
    let from = std::num::nearest_u64_to_f64(x as u64);
    let middle = std::num::nearest_u64_to_f64((total / 2) as u64);
    (from - middle) * cutoff / std::num::nearest_u64_to_f64(factor as u64)
}

// The windowed sinc of a table, by its parameters. They passed both tests.
#[derive(Clone, Copy)]
struct Windowed {
    points: usize,
    factor: usize,
    cutoff: f64,
    windowfunc: WindowFunction,
    ghost holds: { (product_holds points factor && cutoff_holds cutoff) ≡ true },
}

impl Windowed {
    // How many values, and entries, there are.
    fn total(self) -> usize
        ensures { result ≡ self.points * self.factor }
    {
        self.points * self.factor
    }

    // Value x of the windowed sinc.
    fn value(self, wave: QuarterWave, x: usize) -> f64
        requires { x < self.points * self.factor }
        ensures { result ≡ value_at self.points self.factor self.cutoff self.windowfunc x }
    {
        let n = self.total();
        let v = place_of(n, self.factor, self.cutoff, x);
        window_points::point_at(wave.entries(), self.windowfunc, x, n) * sinc(wave, v)
    }

    // The sum of all values, divided by the factor.
    fn sum(self, wave: QuarterWave) -> f64
        ensures { result ≡ sum_of self.points self.factor self.cutoff self.windowfunc }
    {
        let mut sum = 0.0;
        for x in 0..self.total() {
            sum += self.value(wave, x);
        }
        sum / std::num::nearest_u64_to_f64(self.factor as u64)
    }

    // The number of the value that stands at entry j of the table.
    fn value_no(self, j: usize) -> usize
        requires { j < self.points * self.factor }
        ensures { (result ≡ value_no self.points self.factor j) × (result < self.points * self.factor) }
    {
        self.factor * (j % self.points) + (self.factor - 1 - j / self.points)
    }

    // Every entry of the table: a value divided by the sum.
    fn fill(self, wave: QuarterWave, sincs: &mut [f64])
        requires { length sincs.old ≡ self.points * self.factor }
        ensures { sincs.new ≡ listed (entry_at self.points self.factor self.cutoff self.windowfunc) (self.points * self.factor) }
    {
        let sum = self.sum(wave);
        for j in 0..sincs.len() {
            sincs[j] = self.value(wave, self.value_no(j)) / sum;
        }
    }
}

// 2 to 65,536 entries. Points and factor may be any numbers.
fn product_holds(points: usize, factor: usize) -> bool
    ensures { result ≡ product_holds points factor }
{
    match points.checked_mul(factor) {
        Some(entries) => (2 <= entries) & (entries <= 65536),
        None => false,
    }
}

// 0 excluded to 1. A NaN is outside.
fn cutoff_holds(cutoff: f64) -> bool
    ensures { result ≡ cutoff_holds cutoff }
{
    (cutoff > 0.0) & (cutoff <= 1.0)
}

// The table of `npoints` points and `factor` rows, in an area of just that length. Row factor-n-1, place p
// is value factor*p + n over the sum; the rows lie one after the other.
pub fn make_sincs(
    npoints: usize,
    factor: usize,
    cutoff: f64,
    windowfunc: WindowFunction,
    sincs: &mut [f64],
) -> Result<(), Refusal>
    ensures { built_left result sincs.new ≡ sincs_of npoints factor cutoff windowfunc sincs.old }
{
    if !(product_holds(npoints, factor) & cutoff_holds(cutoff)) {
        return Err(Refusal::Argument);
    }
    if sincs.len() != npoints * factor {
        return Err(Refusal::BufferShape);
    }
    let windowed = Windowed {
        points: npoints,
        factor,
        cutoff,
        windowfunc,
    };
    let table = quarter::quarter_wave();
    windowed.fill(QuarterWave::of(&table), sincs);
    Ok(())
}
