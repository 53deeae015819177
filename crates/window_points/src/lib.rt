// The points of a window, in an area that is lent. `point_at`, which is lent the quarter wave, is for our
// own crates.
#![tactic(auto)]

ghost use Rattle.std.specs.Prelude.{◌≡◌, ◌<◌, ◌≤◌, true, ◌&&◌, length, nat_le};
ghost use Rattle.quarter.specs.Wave.{wave};
ghost use Rattle.window_points.specs.Points.{cosine_of, hann_at, blackman_at, harris_at, square_of, point_at};
ghost use Rattle.window_points.specs.Filled.{listed, built_left};
ghost use Rattle.window_points.specs.Window.{window_of};

use error::Refusal;
use quarter::QuarterWave;
use windows::WindowFunction;

// The angle of point i of a window of n points, and the wave that its cosines are read from.
#[derive(Clone, Copy)]
struct Angle<'a> {
    wave: QuarterWave<'a>,
    i: usize,
    n: usize,
    ghost inside: { (i < n) × (n ≤ 65536) },
}

impl Angle<'_> {
    // The cosine of h times the angle.
    fn cosine(self, h: usize) -> f64
        requires { h ≤ 3 }
        ensures { result ≡ cosine_of h self.entry.i self.entry.n }
    {
        let steps = std::num::nearest_u64_to_f64((4096 * h * self.i) as u64);
        let k = steps / std::num::nearest_u64_to_f64(self.n as u64);
        wave::cosine_at(self.wave.entries(), k)
    }

    fn hann(self) -> f64
        ensures { result ≡ hann_at self.entry.i self.entry.n }
    {
        0.5 - 0.5 * self.cosine(1)
    }

    fn blackman(self) -> f64
        ensures { result ≡ blackman_at self.entry.i self.entry.n }
    {
        0.42 - 0.5 * self.cosine(1) + 0.08 * self.cosine(2)
    }

    fn blackman_harris(self) -> f64
        ensures { result ≡ harris_at self.entry.i self.entry.n }
    {
        let c1 = self.cosine(1);
        let c2 = self.cosine(2);
        let c3 = self.cosine(3);
        0.35875 - 0.48829 * c1 + 0.14128 * c2 - 0.01168 * c3
    }
}

fn squared(y: f64) -> f64
    ensures { result ≡ square_of y }
{
    y * y
}

// Point i of a window of n points, over the table that is lent.
#[tactic(auto, unfolding(crate::specs::Points::point_at))]
pub fn point_at(table: &[u32], windowfunc: WindowFunction, i: usize, n: usize) -> f64
    requires table_value { table.now ≡ wave }
    requires i_lt_n { (i < n) × (n ≤ 65536) }
    ensures { result ≡ point_at windowfunc i n }
{
    let angle = Angle {
        wave: QuarterWave::of(table),
        i,
        n,
    };
    match windowfunc {
        WindowFunction::Blackman => angle.blackman(),
        WindowFunction::Blackman2 => squared(angle.blackman()),
        WindowFunction::BlackmanHarris => angle.blackman_harris(),
        WindowFunction::BlackmanHarris2 => squared(angle.blackman_harris()),
        WindowFunction::Hann => angle.hann(),
        WindowFunction::Hann2 => squared(angle.hann()),
    }
}

// Every point of the window that is as long as the area.
fn fill(wave: QuarterWave, windowfunc: WindowFunction, window: &mut [f64])
    requires { length window.old ≤ 65536 }
    ensures { window.new ≡ listed (λ i. point_at windowfunc i (length window.old)) (length window.old) }
{
    let n = window.len();
    for i in 0..n {
        window[i] = point_at(wave.entries(), windowfunc, i, n);
    }
}

fn in_range(npoints: usize) -> bool
    ensures { result ≡ (nat_le 2 npoints && nat_le npoints 65536) }
{
    (2 <= npoints) & (npoints <= 65536)
}

// The periodic window of `npoints` points, 2 to 65,536, in an area of just that length.
pub fn make_window(
    npoints: usize,
    windowfunc: WindowFunction,
    window: &mut [f64],
) -> Result<(), Refusal>
    ensures { built_left result window.new ≡ window_of npoints windowfunc window.old }
{
    if !in_range(npoints) {
        return Err(Refusal::Argument);
    }
    if window.len() != npoints {
        return Err(Refusal::BufferShape);
    }
    let table = quarter::quarter_wave();
    fill(QuarterWave::of(&table), windowfunc, window);
    Ok(())
}
