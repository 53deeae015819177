// A frame's value by a sinc: the grid points' values over the lent table, and their blend. Only our own
// crates call these.
#![tactic(auto)]

ghost use Rattle.std.specs.Prelude.{◌≡◌, ◌-◌, ◌≤◌, length};
ghost use Rattle.grid_places.specs.Turns.{Fits, FitAll};
ghost use Rattle.sinc_value.specs.Values.{sum_to, point_value, spots_value};

use grid_places::{Spot, Spots};

// Samples times a row of the table, summed in rising order, begun with the first product.
fn get_sinc_interpolated(wave: &[f64], row: &[f64]) -> f64
    requires { (1 ≤ length row.now) × (length wave.now ≡ length row.now) }
    ensures { result ≡ sum_to wave.now row.now (length row.now - 1) }
{
    let mut sum = wave[0] * row[0];
    for k in 1..row.len() {
        sum = sum + wave[k] * row[k];
    }
    sum
}

// A grid point's value, of l samples.
fn point_value(l: usize, table: &[f64], work: &[f64], a: Option<Spot>) -> f64
    requires { (1 ≤ l) × Fits l (length work.now) (length table.now) a }
    ensures { result ≡ point_value l table.now work.now a }
{
    let Some(Spot { start, row }) = a else {
        return 0.0;
    };
    let b = row * l;
    get_sinc_interpolated(&work[start..start + l], &table[b..b + l])
}

// The blend of a frame's grid points.
pub fn spots_value(l: usize, table: &[f64], work: &[f64], spots: Option<Spots>) -> f64
    requires { (1 ≤ l) × FitAll l (length work.now) (length table.now) spots }
    ensures { result ≡ spots_value l table.now work.now spots }
{
    match spots {
        Some(Spots::One(a)) => point_value(l, table, work, a),
        Some(Spots::Two(a, b, x)) => {
            let y0 = point_value(l, table, work, a);
            let y1 = point_value(l, table, work, b);
            asynchro_sinc::lin_on(x, y0, y1)
        }
        Some(Spots::Three(a, b, c, x)) => {
            let y0 = point_value(l, table, work, a);
            let y1 = point_value(l, table, work, b);
            let y2 = point_value(l, table, work, c);
            asynchro_sinc::quad_on(x, y0, y1, y2)
        }
        Some(Spots::Four(a, b, c, d, x)) => {
            let y0 = point_value(l, table, work, a);
            let y1 = point_value(l, table, work, b);
            let y2 = point_value(l, table, work, c);
            let y3 = point_value(l, table, work, d);
            asynchro_sinc::cubic_on(x, y0, y1, y2, y3)
        }
        None => 0.0,
    }
}
