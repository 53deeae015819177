// Pieces of the picture's text.
use std::fmt;

// A number of hundredths, with two decimals.
#[derive(Clone, Copy)]
pub struct Hundredths(pub u64);

impl fmt::Display for Hundredths {
    fn fmt<W: fmt::Write>(&self, f: &mut fmt::Formatter<W>) -> fmt::Result {
        write!(f, "{}.{}{}", self.0 / 100, self.0 / 10 % 10, self.0 % 10)
    }
}

// Two numbers of hundredths.
#[derive(Clone, Copy)]
pub struct Pair(pub u64, pub u64);

impl fmt::Display for Pair {
    fn fmt<W: fmt::Write>(&self, f: &mut fmt::Formatter<W>) -> fmt::Result {
        write!(f, "{},{}", Hundredths(self.0), Hundredths(self.1))
    }
}

// The front of a text that stands at x, y.
pub fn put_text<W: fmt::Write>(out: &mut W, x: u64, y: u64, anchor: &str) -> fmt::Result {
    let left = Hundredths(x);
    let top = Hundredths(y);
    write!(
        out,
        "<text x=\"{left}\" y=\"{top}\" text-anchor=\"{anchor}\">"
    )
}

// A text whole.
pub fn put_label<W: fmt::Write>(
    out: &mut W,
    x: u64,
    y: u64,
    anchor: &str,
    label: &str,
) -> fmt::Result {
    put_text(out, x, y, anchor)?;
    write!(out, "{label}</text>\n")
}

// The front of a path of that class.
pub fn put_path<W: fmt::Write>(out: &mut W, class: &str) -> fmt::Result {
    write!(out, "<path class=\"{class}\" d=\"")
}
