// The index path of a block, where a frame's samples lie, and Reach. Only our own crates call these.
#![tactic(auto)]

ghost use Rattle.std.specs.Prelude.{◌≡◌, true, ◌<◌, ◌≤◌, length};
ghost use Rattle.kinds.specs.Kinds.{kind_holds};
ghost use Rattle.path.specs.Path.{step_index, path_at};
ghost use Rattle.path.specs.Places.{
  place_of,
  shift_of,
  last_of,
  is_at,
};
ghost use Rattle.path.specs.Sites.{site_of, reached, all_reach};
ghost use Rattle.path.specs.Turns.{span_of, inner_span, is_within, all_along, put_start, put_frac, PlacedTo};

use asynchro_fast::PolynomialDegree;
use grid_places::Spots;
use kinds::Kind;

// Where a block is between two frames: the index, and the step that led to it.
#[derive(Clone, Copy)]
pub struct Moment {
    pub index: f64,
    pub step: f64,
}

// Where a kernel's neighbours begin, and its fraction.
#[derive(Clone, Copy)]
pub struct Place {
    pub start: usize,
    pub frac: f64,
}

// The indexes from `least` on and below `end`.
#[derive(Clone, Copy)]
pub struct Span {
    pub least: f64,
    pub end: f64,
}

// Where a frame's samples lie: the neighbours of a kernel, None where they are not all there, or the grid
// points of a sinc of so many points.
#[derive(Clone, Copy)]
pub enum Site {
    Kernel(PolynomialDegree, Option<Place>),
    Grid(usize, Option<Spots>),
}

// What a look along the path finds: whether every frame is in reach, and the index after the last.
#[derive(Clone, Copy)]
pub struct Looked {
    pub reach: bool,
    pub index: f64,
}

// What a walk along the path finds: the moment after the last frame, and whether every frame has its place.
#[derive(Clone, Copy)]
pub struct Walked {
    pub after: Moment,
    pub reach: bool,
}

// One frame: the step becomes step + d, then the index becomes index + step.
pub fn step_index(at: Moment, d: f64) -> Moment
    ensures { result ≡ step_index d at }
{
    let step = at.step + d;
    Moment {
        index: at.index + step,
        step,
    }
}

// The indexes that have a place, -shift <= x < last - shift + 1: both ends are exact.
fn span_of(shift: usize, last: usize) -> Span
    requires { (shift < 131072) × (last < 131072) }
    ensures { result ≡ span_of shift last }
{
    let least = -(shift as f64);
    Span {
        least,
        end: least + (last + 1) as f64,
    }
}

// The indexes of which it is known at once that their samples are all there: of a kernel all, of a sinc
// those whose grid points, one sample before the floor to one after it, are.
fn inner_span(kind: Kind, needed: usize) -> Span
    requires { (kind_holds kind ≡ true) × (needed ≤ 65536) }
    ensures { result ≡ inner_span kind needed }
{
    match kind {
        Kind::Polynomial(degree) => {
            let shift = shift_of(degree);
            let last = last_of(degree, needed);
            span_of(shift, last)
        }
        Kind::Sinc(points, _, _) => {
            let shift = 2 * points - 1;
            let last = points + needed - 2;
            span_of(shift, last)
        }
    }
}

fn is_within(span: Span, x: f64) -> bool
    ensures { result ≡ is_within span x }
{
    (x >= span.least) & (x < span.end)
}

// The place of the index x: floor and fraction come from `split` and from nowhere else. Within the span
// floor + shift is a whole number from 0 on, so the sum is exact and the cast loses nothing.
pub fn place_of(shift: usize, last: usize, x: f64) -> Option<Place>
    requires { (shift < 131072) × (last < 131072) }
    ensures { result ≡ place_of shift last x }
{
    if is_within(span_of(shift, last), x) {
        let s = whole::split(x);
        let first = s.floor + shift as f64;
        let start = first as u32 as usize;
        return Some(Place {
            start,
            frac: s.frac,
        });
    }
    None
}

pub fn shift_of(degree: PolynomialDegree) -> usize
    ensures { result ≡ shift_of degree }
{
    2 * asynchro_fast::nbr_points(degree) - asynchro_fast::points_before(degree)
}

pub fn last_of(degree: PolynomialDegree, needed: usize) -> usize
    requires { needed ≤ 65536 }
    ensures { result ≡ last_of degree needed }
{
    asynchro_fast::nbr_points(degree) + needed
}

// The site of the index x in a block that needs so many input frames.
pub fn site_of(kind: Kind, needed: usize, x: f64) -> Site
    requires { (kind_holds kind ≡ true) × (needed ≤ 65536) }
    ensures { result ≡ site_of kind needed x }
{
    match kind {
        Kind::Polynomial(degree) => {
            let shift = shift_of(degree);
            let last = last_of(degree, needed);
            Site::Kernel(degree, place_of(shift, last, x))
        }
        Kind::Sinc(points, factor, blend) => {
            let shift = 2 * points;
            let last = points + needed;
            Site::Grid(points, grid_places::spots_of(blend, factor, shift, last, x))
        }
    }
}

// Every sample of the site is there.
fn is_reached(site: Site) -> bool
    ensures { result ≡ reached site }
{
    match site {
        Site::Kernel(_, p) => p.is_some(),
        Site::Grid(_, spots) => grid_places::all_held(spots),
    }
}

// The path, and whether every index lies within the span: two comparisons a frame.
fn look_within(span: Span, t: f64, d: f64, i: f64, n: usize) -> Looked
    ensures reach { result.reach ≡ all_along (is_within span) t d i n }
    ensures index { result.index ≡ (path_at t d i n).index }
{
    let mut at = Moment { index: i, step: t };
    let mut reach = true;
    for f in 0..n {
        at = step_index(at, d);
        reach = reach & is_within(span, at.index);
    }
    let index = at.index;
    Looked { reach, index }
}

// The path, and whether every frame's samples are there, by its site.
fn look_sites(kind: Kind, needed: usize, t: f64, d: f64, i: f64, n: usize) -> Looked
    requires { (kind_holds kind ≡ true) × (needed ≤ 65536) }
    ensures reach { result.reach ≡ all_reach kind needed t d i n }
    ensures index { result.index ≡ (path_at t d i n).index }
{
    let mut at = Moment { index: i, step: t };
    let mut reach = true;
    for f in 0..n {
        at = step_index(at, d);
        reach = reach & is_reached(site_of(kind, needed, at.index));
    }
    Looked {
        reach,
        index: at.index,
    }
}

// Reach's pass: every frame is looked at, with no early way out. Within the inner span there is no more to ask.
pub fn look(kind: Kind, needed: usize, t: f64, d: f64, i: f64, n: usize) -> Looked
    requires { (kind_holds kind ≡ true) × (needed ≤ 65536) }
    ensures reach { result.reach ≡ all_reach kind needed t d i n }
    ensures index { result.index ≡ (path_at t d i n).index }
{
    let seen = look_within(inner_span(kind, needed), t, d, i, n);
    if seen.reach {
        return seen;
    }
    look_sites(kind, needed, t, d, i, n)
}

// A found place and its fraction go to place f of the two lists.
fn put_place(p: Option<Place>, f: usize, places: &mut [usize], fracs: &mut [f64]) -> bool
    requires { (f < length places.old) × (f < length fracs.old) }
    ensures found { result ≡ is_at p }
    ensures starts { places.new ≡ put_start p f places.old }
    ensures parts { fracs.new ≡ put_frac p f fracs.old }
{
    match p {
        Some(p) => {
            places[f] = p.start;
            fracs[f] = p.frac;
            true
        }
        None => false,
    }
}

// The first n frames after a moment: the place and the fraction of each, whether all have one, and the moment
// after the last.
pub fn walk(
    shift: usize,
    last: usize,
    from: Moment,
    d: f64,
    places: &mut [usize],
    fracs: &mut [f64],
    n: usize,
) -> Walked
    requires shift_bound { (shift < 131072) × (last < 131072) }
    requires n_in_bounds { (n ≤ length places.old) × (n ≤ length fracs.old) }
    ensures after { result.after ≡ path_at from.step d from.index n }
    ensures placed { result.reach ≡ true → PlacedTo shift last from.step d from.index places.new fracs.new n }
{
    let mut at = from;
    let mut reach = true;
    for f in 0..n {
        at = step_index(at, d);
        let p = place_of(shift, last, at.index);
        reach = put_place(p, f, places, fracs) & reach;
    }
    Walked { after: at, reach }
}
