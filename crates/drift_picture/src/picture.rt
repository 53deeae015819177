// The picture: the distance and its bound over the output frames, as an SVG.
use crate::axes::{put_counts, put_heights, put_names};
use crate::chart::Point;
use crate::pen::{Hundredths, Pair, put_label, put_path, put_text};
use crate::view::{View, view_of, x_of, y_of};
use sheets::Total;
use std::fmt;

// What stands in front of everything.
const FRONT: &str =
    "<svg xmlns=\"http://www.w3.org/2000/svg\" width=\"900\" height=\"500\" viewBox=\"0 0 900 500\" font-family=\"sans-serif\" font-size=\"12\">
<style>path{fill:none;stroke-linecap:round;stroke-linejoin:round}.axis{stroke:#333}.grid{stroke:#ddd}.begin{stroke:#999;stroke-width:.5}.bound{stroke:#d95f02;stroke-width:1.5}.distance{stroke:#1f5fb4;stroke-width:1.5}</style>
<rect width=\"900\" height=\"500\" fill=\"#fff\"/>
";

fn put_title<W: fmt::Write>(out: &mut W, logs: usize, t: Total) -> fmt::Result {
    let noun = if logs == 1 { "log" } else { "logs" };
    let frames = t.frames;
    let blocks = t.blocks;
    put_text(out, 9000, 2400, "start")?;
    write!(
        out,
        "Stored and exact position: {logs} {noun}, N {frames}, B {blocks}</text>\n"
    )
}

fn put_legend<W: fmt::Write>(out: &mut W) -> fmt::Result {
    put_path(out, "distance")?;
    write!(out, "M640.00,40.00h24\"/>\n")?;
    put_label(out, 67000, 4400, "start", "distance")?;
    put_path(out, "bound")?;
    write!(out, "M750.00,40.00h24\"/>\n")?;
    put_label(out, 78000, 4400, "start", "bound")
}

// A rule wherever a line begins.
fn put_begins<W: fmt::Write>(out: &mut W, v: View, points: &[Point]) -> fmt::Result {
    put_path(out, "begin")?;
    for p in points {
        if let Some(frames) = p.begins {
            write!(out, "M{},60.00v380", Hundredths(x_of(v, frames)))?;
        }
    }
    write!(out, "\"/>\n")
}

// A point of a curve, which is drawn anew where a line begins.
fn put_point<W: fmt::Write>(out: &mut W, v: View, p: Point, height: u64) -> fmt::Result {
    let place = Pair(x_of(v, p.at), y_of(v, height));
    if p.begins.is_some() {
        return write!(out, "M{place}h0");
    }
    write!(out, "L{place}")
}

// A curve: of each point the height that is asked for.
fn put_curve<W: fmt::Write, F: Fn(Point) -> u64>(
    out: &mut W,
    v: View,
    points: &[Point],
    class: &str,
    height: F,
) -> fmt::Result
    requires { (p : Point) → F.pre height p }
{
    put_path(out, class)?;
    for p in points {
        put_point(out, v, *p, height(*p))?;
    }
    write!(out, "\"/>\n")
}

// What stands in the field, the distance in front.
fn put_curves<W: fmt::Write>(out: &mut W, v: View, points: &[Point]) -> fmt::Result {
    put_begins(out, v, points)?;
    put_path(out, "axis")?;
    write!(out, "M90.00,60.00V440.00H870.00\"/>\n")?;
    put_curve(out, v, points, "bound", |p| p.most)?;
    put_curve(out, v, points, "distance", |p| p.apart)
}

// The whole text of the picture of these points.
pub fn put_picture<W: fmt::Write>(
    out: &mut W,
    logs: usize,
    t: Total,
    points: &[Point],
) -> fmt::Result {
    let v = view_of(points, t.frames);
    write!(out, "{FRONT}")?;
    put_title(out, logs, t)?;
    put_heights(out, v)?;
    put_counts(out, v)?;
    put_names(out)?;
    put_curves(out, v, points)?;
    put_legend(out)?;
    write!(out, "</svg>\n")
}
