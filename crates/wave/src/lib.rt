// The cosine and the sine, by the quarter wave: of k steps, 4,096 of which make a turn. Between two whole
// steps a straight line is taken.
//
// `cosine_at` and `sine_at`, which are lent the quarter wave, are for our own crates: who calls them has it
// made once, by `quarter::quarter_wave`.
#![tactic(auto)]

ghost use Rattle.std.specs.Prelude.{◌≡◌, ◌<◌, ◌≤◌, true, [], pos, neg_ℤ};
ghost use Rattle.std.specs.Float.{binary64};
ghost use Rattle.std.specs.Float.Ieee.{of_int, to_signed};
ghost use Rattle.error.specs.Refusals.{given, unless, said_answer};
ghost use Rattle.quarter.specs.Wave.{wave};
ghost use Rattle.whole.specs.Small.{small};
ghost use Rattle.wave.specs.Carried.{place_of, in_quarter};
ghost use Rattle.wave.specs.Cosine.{cosine_at, sine_at, cosine_said, sine_said};
ghost use Rattle.wave.specs.Turns.{Castable, place_f, line_from, line_at};

use error::Refusal;
use quarter::QuarterWave;

// How many places ahead of k the line is taken. The sine is the cosine a quarter of a turn before, which
// is three quarters on.
const COSINE: usize = 0;

const SINE: usize = 3072;

// An entry as a double.
fn plus(w: u32) -> f64
    ensures { result ≡ of_int binary64 (pos w) }
{
    std::num::nearest_u64_to_f64(w as u64)
}

// The same with the other sign. The number is negated and not the double: of 0 it is 0.0 again.
fn minus(w: u32) -> f64
    ensures { result ≡ of_int binary64 (neg_ℤ (pos w)) }
{
    std::num::nearest_i64_to_f64(0 - (w as i64))
}

// The value r steps after the start of a quarter.
fn in_quarter(wave: QuarterWave, quarter: usize, r: usize) -> f64
    requires { r < 1024 }
    ensures { result ≡ of_int binary64 (in_quarter quarter r) }
{
    match quarter {
        0 => plus(wave.entry(r)),
        1 => minus(wave.entry(1024 - r)),
        2 => minus(wave.entry(r)),
        _ => plus(wave.entry(1024 - r)),
    }
}

// The value at a place, which may lie behind the first turn.
fn step_at(wave: QuarterWave, place: usize) -> f64
    ensures { result ≡ place_f place }
{
    let p = place % 4096;
    in_quarter(wave, p / 1024, p % 1024)
}

// The place of a whole number of steps in its turn. 2^52 is a number of whole turns.
fn place_of(floor: f64) -> usize
    requires { Castable floor }
    ensures { result ≡ place_of (to_signed 63 floor) }
{
    let n = std::num::truncating_f64_to_i64(floor);
    let m = (n + 4503599627370496) as u64;
    (m % 4096) as usize
}

// The part x of the way from a place to the next one.
fn line_from(wave: QuarterWave, place: usize, x: f64) -> f64
    requires { place ≤ 8192 }
    ensures { result ≡ line_from place x }
{
    let a = step_at(wave, place);
    let b = step_at(wave, place + 1);
    (a + x * (b - a)) * 9.313225746154785e-10
}

// The line so many places ahead of k. That k is small stands here and in the two that are lent the wave,
// and in no type: who calls them has just divided for k, and would wrap it for this one call.
fn line_at(wave: QuarterWave, k: f64, ahead: usize) -> f64
    requires k_value { small k ≡ true }
    requires ahead_bound { ahead ≤ 4096 }
    ensures { result ≡ line_at ahead k }
{
    let s = whole::split(k);
    let place = place_of(s.floor);
    line_from(wave, place + ahead, s.frac)
}

// The cosine of k steps, over the table that is lent.
pub fn cosine_at(table: &[u32], k: f64) -> f64
    requires table_value { table.now ≡ wave }
    requires k_value { small k ≡ true }
    ensures { result ≡ cosine_at k }
{
    line_at(QuarterWave::of(table), k, COSINE)
}

// The sine of k steps, likewise.
pub fn sine_at(table: &[u32], k: f64) -> f64
    requires table_value { table.now ≡ wave }
    requires k_value { small k ≡ true }
    ensures { result ≡ sine_at k }
{
    line_at(QuarterWave::of(table), k, SINE)
}

// |k| is below 2^52. A NaN is not.
fn is_small(k: f64) -> bool
    ensures { result ≡ small k }
{
    (k > -4503599627370496.0) & (k < 4503599627370496.0)
}

// The line's value, or why not.
fn answered(k: f64, ahead: usize) -> Result<f64, Refusal>
    requires { ahead ≤ 4096 }
    ensures { said_answer result ≡ unless (small k) 11 [] (given (line_at ahead k)) }
{
    if !is_small(k) {
        return Err(Refusal::Argument);
    }
    let table = quarter::quarter_wave();
    Ok(line_at(QuarterWave::of(&table), k, ahead))
}

// The cosine of k steps, |k| below 2^52.
pub fn cosine(k: f64) -> Result<f64, Refusal>
    ensures { said_answer result ≡ cosine_said k }
{
    answered(k, COSINE)
}

// The sine of k steps, |k| below 2^52.
pub fn sine(k: f64) -> Result<f64, Refusal>
    ensures { said_answer result ≡ sine_said k }
{
    answered(k, SINE)
}
