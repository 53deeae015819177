// Where the samples of a frame's grid points lie, for a sinc. Only our own crates call these.
#![tactic(auto)]

ghost use Rattle.std.specs.Prelude.{◌≡◌, ◌<◌, nat_le};
ghost use Rattle.grid_places.specs.Spots.{
  within,
  spot_of,
  blend_place,
  spots_said,
  spots_of,
  all_held,
};

use asynchro_sinc::SincInterpolationType;
use interpolation::Point;

// Where a grid point's samples begin in a channel's working area, and its row of the table.
#[derive(Clone, Copy)]
pub struct Spot {
    pub start: usize,
    pub row: usize,
}

// The grid points of a frame, one to four, None where its samples are not all there; and the blend place.
#[derive(Clone, Copy)]
pub enum Spots {
    One(Option<Spot>),
    Two(Option<Spot>, Option<Spot>, f64),
    Three(Option<Spot>, Option<Spot>, Option<Spot>, f64),
    Four(Option<Spot>, Option<Spot>, Option<Spot>, Option<Spot>, f64),
}

fn spot_at(start: usize, last: usize, row: usize) -> Option<Spot>
    ensures { result ≡ within (nat_le start last) start row }
{
    if start <= last {
        Some(Spot { start, row })
    } else {
        None
    }
}

// The place index + shift, up to `last`.
pub fn spot_of(shift: usize, last: usize, p: Point) -> Option<Spot>
    requires { (shift < 131072) × (last < 131072) }
    ensures { result ≡ spot_of shift last p }
{
    let row = p.subindex as usize;
    let z = p.index;
    if z >= 0 {
        let n = z as usize;
        if n <= last {
            return spot_at(n + shift, last, row);
        }
        return None;
    }
    if z >= -131072 {
        let n = (-z) as usize;
        if n <= shift {
            return spot_at(shift - n, last, row);
        }
    }
    None
}

// index*factor minus its floor: floor and fraction come from `split` and from nowhere else.
fn blend_place(x: f64, factor: usize) -> f64
    ensures { result ≡ blend_place x factor }
{
    let s = whole::split(x * std::num::nearest_u64_to_f64(factor as u64));
    s.frac
}

// The grid points of the index x, by the ported functions.
pub fn spots_of(
    blend: SincInterpolationType,
    factor: usize,
    shift: usize,
    last: usize,
    x: f64,
) -> Option<Spots>
    requires { (shift < 131072) × (last < 131072) }
    ensures { result ≡ spots_of blend factor shift last x }
{
    let parts = factor as u64;
    let spot = |p: Point| spot_of(shift, last, p);
    Some(match blend {
        SincInterpolationType::Nearest => {
            let p = interpolation::get_nearest_time(x, parts).ok()?;
            Spots::One(spot(p))
        }
        SincInterpolationType::Linear => {
            let [p, q] = interpolation::get_nearest_times_2(x, parts).ok()?;
            Spots::Two(spot(p), spot(q), blend_place(x, factor))
        }
        SincInterpolationType::Quadratic => {
            let [p, q, o] = interpolation::get_nearest_times_3(x, parts).ok()?;
            Spots::Three(spot(p), spot(q), spot(o), blend_place(x, factor))
        }
        SincInterpolationType::Cubic => {
            let [p, q, o, n] = interpolation::get_nearest_times_4(x, parts).ok()?;
            Spots::Four(spot(p), spot(q), spot(o), spot(n), blend_place(x, factor))
        }
    })
}

// Every grid point's samples are there.
pub fn all_held(spots: Option<Spots>) -> bool
    ensures { result ≡ all_held spots }
{
    match spots {
        Some(Spots::One(a)) => a.is_some(),
        Some(Spots::Two(a, b, _)) => a.is_some() & b.is_some(),
        Some(Spots::Three(a, b, c, _)) => a.is_some() & b.is_some() & c.is_some(),
        Some(Spots::Four(a, b, c, d, _)) => a.is_some() & b.is_some() & c.is_some() & d.is_some(),
        None => false,
    }
}
