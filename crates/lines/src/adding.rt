// A line with a block added.
ghost use Rattle.std.specs.Prelude.{◌≡◌};
ghost use Rattle.big.specs.Value.{value_of};
ghost use Rattle.lines.specs.Lines.{figures_of, going_of, with_block};
ghost use Rattle.lines.specs.Steps.{OtherBy, IsTriangle, MovedBy, StoredBy, ramp_by, allowed_by, AfterBy, CountedBy, PlacedBy, GrownBy};

use crate::{End, Factors, Line};
use big::{Big, add, of_u64, shift_left};
use positions::{NoPosition, of_double, sum, times, with_whole};

fn is_other(x: Result<Big, NoPosition>) -> bool
    ensures { OtherBy x result }
{
    matches!(x, Err(NoPosition::Other))
}

// n*(n+1)/2: the even one of the two is halved.
fn triangle(n: u32) -> Factors
    ensures { IsTriangle n result }
{
    if n % 2 == 0 {
        return Factors { j: n / 2, k: n + 1 };
    }
    Factors { j: n / 2 + 1, k: n }
}

// n*t + d*n*(n+1)/2.
fn moved(n: u32, step: Result<Big, NoPosition>, more: Result<Big, NoPosition>) -> Option<Big>
    ensures { MovedBy n step more result }
{
    let f = triangle(n);
    let steps = times(step, n, 1)?;
    let ramp = times(more, f.j, f.k)?;
    sum(steps, ramp)
}

// The input sizes answered and the index.
fn stored_at(inputs: u64, at: Result<Big, NoPosition>) -> Option<Big>
    ensures { StoredBy inputs at result }
{
    match at {
        Ok(i) => with_whole(inputs, i),
        Err(_) => None,
    }
}

// n*(n+1)/2^46.
fn ramp_of(n: u32, flat: bool) -> Big
    ensures { value_of result ≡ ramp_by n flat }
{
    if flat {
        return of_u64(0);
    }
    let m = u64::from(n);
    shift_left(of_u64(m * (m + 1)), 146)
}

// What a block adds to the bound: (n+1)/2^37, and n*(n+1)/2^46 where its increment is not zero.
fn allowance(n: u32, flat: bool) -> Big
    ensures { value_of result ≡ allowed_by n flat }
{
    add(shift_left(of_u64(n as u64 + 1), 155), ramp_of(n, flat))
}

// The line's exact position with what a block moves it.
fn exact_after(before: Big, way: Option<Big>) -> Option<Big>
    ensures { AfterBy before way result }
{
    sum(before, way?)
}

// The line's counts and its bound with a block; its positions are those before it.
fn counted(l: Line, n: u32, c: u32, flat: bool) -> Option<Line>
    ensures { CountedBy l n c flat result }
{
    let frames = l.frames.checked_add(u64::from(n))?;
    let blocks = l.blocks.checked_add(1)?;
    let inputs = l.inputs.checked_add(u64::from(c))?;
    let most = add(l.most, allowance(n, flat));
    Some(Line {
        frames,
        blocks,
        inputs,
        most,
        ..l
    })
}

// The line with other positions.
fn placed(l: Line, exactly: Option<Big>, stored: Option<Big>) -> Option<Line>
    ensures { PlacedBy l exactly stored result }
{
    let exactly = exactly?;
    let stored = stored?;
    Some(Line {
        exactly,
        stored,
        ..l
    })
}

// The line with a block whose three doubles are positions, each product, sum and count within its range.
fn grown(
    l: Line,
    n: u32,
    c: u32,
    step: Result<Big, NoPosition>,
    more: Result<Big, NoPosition>,
    at: Result<Big, NoPosition>,
    flat: bool,
) -> Option<Line>
    ensures { GrownBy l n c step more at flat result }
{
    let next = counted(l, n, c, flat)?;
    placed(
        next,
        exact_after(l.exactly, moved(n, step, more)),
        stored_at(next.inputs, at),
    )
}

// The line with an accepted block of n output and c input frames: its starting step t, its increment d and
// the index that it left. Ends with Float where one of these is no position, then with Range.
pub fn add_block(l: Line, n: u32, c: u32, t: f64, d: f64, index: f64) -> Result<Line, End>
    ensures { going_of result ≡ with_block (figures_of l) n c t d index }
{
    let step = of_double(t);
    let more = of_double(d);
    let at = of_double(index);
    if is_other(step) | is_other(more) | is_other(at) {
        return Err(End::Float);
    }
    grown(l, n, c, step, more, at, d == 0.0).ok_or(End::Range)
}
