// Where frames and lengths stand in the picture, in hundredths of its units. The field of the curves is 780
// wide and 380 high, its lower left corner at 90, 440.
ghost use Rattle.std.specs.Prelude.{◌≤◌};

use crate::chart::Point;

// The output frames along the field, and the powers of ten at its bottom and top, counted from 10^-58.
#[derive(Clone, Copy)]
pub struct View {
    pub frames: u64,
    pub low: u64,
    pub high: u64,
}

// The millionths that n is of `whole`.
fn share(n: u64, whole: u64) -> u64
    ensures { result ≤ 1000000 }
{
    let unit = whole / 1000000000000 + 1;
    let part = n / unit;
    let all = whole / unit;
    if all == 0 {
        return 0;
    }
    if part > 1000000000000 {
        return 0;
    }
    (part * 1000000 / all).min(1000000)
}

pub fn x_of(v: View, frames: u64) -> u64
    ensures { result ≤ 87000 }
{
    9000 + share(frames, v.frames) * 78 / 1000
}

// A height that is not above the bottom, as that of no length, is drawn there.
pub fn y_of(v: View, height: u64) -> u64
    ensures { result ≤ 44000 }
{
    let low = v.low;
    let high = v.high;
    if (high > 1000) | (high <= low) {
        return 44000;
    }
    if height <= 1000 * low {
        return 44000;
    }
    44000 - share(height - 1000 * low, 1000 * (high - low)) * 38 / 1000
}

// The heights of the points that are no 0: the lowest and the highest, where there is any.
fn span_of(points: &[Point]) -> Option<(u64, u64)> {
    let mut span = None;
    for p in points {
        span = widened(widened(span, p.apart), p.most);
    }
    span
}

fn widened(span: Option<(u64, u64)>, height: u64) -> Option<(u64, u64)> {
    if height == 0 {
        return span;
    }
    match span {
        None => Some((height, height)),
        Some((low, high)) => Some((low.min(height), high.max(height))),
    }
}

// Whole powers of ten around every height of the points; 10^-12 to 10^-4 where there is none.
pub fn view_of(points: &[Point], frames: u64) -> View {
    match span_of(points) {
        None => View {
            frames,
            low: 46,
            high: 54,
        },
        Some((low, high)) => View {
            frames,
            low: low / 1000,
            high: high / 1000 + 1,
        },
    }
}
