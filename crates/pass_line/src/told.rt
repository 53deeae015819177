// What the log has of a line: its positions behind each block, and at the end all its figures and, for
// comparison, what else a pass is off by. The operator sees the comparison.
use crate::numbers::{put_number, put_with_bits};
use crate::quotients::samples_in;
use crate::{Ended, PassLine};
use big::Big;
use lines::{End, Line, distance_of, is_inside};
use position_text::{put_length, put_position, put_rounded_length, put_rounded_position};
use printer::{front_of, put_bytes};
use system::{Fd, System};

// A name, and a position as a decimal and exact.
fn put_place(out: &mut [u8], at: usize, name: &[u8], b: Big) -> usize {
    let named = put_bytes(out, at, name);
    let rounded = put_rounded_position(out, named, b);
    let mark = put_bytes(out, rounded, b" x");
    put_position(out, mark, b)
}

fn put_size(out: &mut [u8], at: usize, name: &[u8], n: Big) -> usize {
    let named = put_bytes(out, at, name);
    let rounded = put_rounded_length(out, named, n);
    let mark = put_bytes(out, rounded, b" x");
    put_length(out, mark, n)
}

fn put_positions(out: &mut [u8], at: usize, l: Line) -> usize {
    let first = put_place(out, at, b" exact ", l.exactly);
    let second = put_place(out, first, b" stored ", l.stored);
    put_size(out, second, b" distance ", distance_of(l))
}

// The word that a line ended with, if it has ended.
fn put_end(out: &mut [u8], at: usize, ended: Option<Ended>) -> usize {
    let Some(e) = ended else {
        return at;
    };
    match e.end {
        End::Float => put_bytes(out, at, b" ended float"),
        _ => put_bytes(out, at, b" ended range"),
    }
}

// The positions behind a block; the word behind the block that ended the line, and nothing behind later ones.
fn put_after(out: &mut [u8], at: usize, p: PassLine) -> usize {
    match p.ended {
        None => put_positions(out, at, p.line),
        Some(e) => { if e.now { put_end(out, at, p.ended) } else { at } }
    }
}

// Writes the line of a block: the form with its numbers, and the positions behind it.
pub fn write_block(sys: &mut System, log: Fd, form: &[u8], numbers: &[u64], p: PassLine) -> bool {
    let mut text = [0u8; 1024];
    let front = forms::put_form(&mut text, form, numbers);
    let after = put_after(&mut text, front, p);
    let n = put_bytes(&mut text, after, b"\n");
    let k = front_of(&text, n);
    sys.write_all(log, &text[..k])
}

fn put_inside(out: &mut [u8], at: usize, l: Line) -> usize {
    if is_inside(l) {
        return put_bytes(out, at, b" inside");
    }
    put_bytes(out, at, b" outside")
}

// The line of the pass.
fn write_line(sys: &mut System, log: Fd, p: PassLine) -> bool {
    let l = p.line;
    let mut text = [0u8; 1024];
    let front = forms::put_form(&mut text, b"line N # B #", &[l.frames, l.blocks]);
    let positions = put_positions(&mut text, front, l);
    let most = put_size(&mut text, positions, b" bound ", l.most);
    let inside = put_inside(&mut text, most, l);
    let end = put_end(&mut text, inside, p.ended);
    let n = put_bytes(&mut text, end, b"\n");
    let k = front_of(&text, n);
    sys.write_all(log, &text[..k])
}

// Who reads a comparison: the operator, to whom the program names itself, or a reader of the log, which has the
// bits of each figure too.
#[derive(Clone, Copy)]
enum Reader {
    Operator,
    Log,
}

impl Reader {
    fn put_start(self, out: &mut [u8]) -> usize {
        match self {
            Reader::Operator => put_bytes(out, 0, b"resample: "),
            Reader::Log => 0,
        }
    }

    fn put_figure(self, out: &mut [u8], at: usize, x: f64) -> usize {
        match self {
            Reader::Operator => put_number(out, at, x),
            Reader::Log => put_with_bits(out, at, x),
        }
    }
}

// Where a comparison goes, who reads it, and the input's rate where it is known.
#[derive(Clone, Copy)]
struct Comparison {
    fd: Fd,
    reader: Reader,
    rate: Option<u64>,
}

impl Comparison {
    // A number of samples, and what it is in seconds and in metres of light path where the rate is known.
    fn put_figures(self, out: &mut [u8], at: usize, x: f64) -> usize {
        let samples = self.reader.put_figure(out, at, x);
        let named = put_bytes(out, samples, b" samples");
        let Some(rate) = self.rate else {
            return named;
        };
        let time = x / std::num::nearest_u64_to_f64(rate);
        let comma = put_bytes(out, named, b", ");
        let seconds = self.reader.put_figure(out, comma, time);
        let second = put_bytes(out, seconds, b" seconds, ");
        let metres = self.reader.put_figure(out, second, time * 299792458.0);
        put_bytes(out, metres, b" metres of light path")
    }

    // A line: its name, its figures, and what is to be said of them.
    fn write_figures(self, sys: &mut System, name: &[u8], x: f64, more: &[u8]) -> bool {
        let mut text = [0u8; 512];
        let start = self.reader.put_start(&mut text);
        let named = put_bytes(&mut text, start, name);
        let figures = self.put_figures(&mut text, named, x);
        let said = put_bytes(&mut text, figures, more);
        let n = put_bytes(&mut text, said, b"\n");
        let k = front_of(&text, n);
        sys.write_all(self.fd, &text[..k])
    }

    fn write_bound(self, sys: &mut System, l: Line) -> bool {
        let x = samples_in(l.most);
        let name = b"the proved bound: ";
        if is_inside(l) {
            return self.write_figures(sys, name, x, b", and the distance is inside it");
        }
        self.write_figures(sys, name, x, b", and the distance is NOT inside it")
    }

    fn write_rounding(self, sys: &mut System, p: PassLine) -> bool {
        let mut more = [0u8; 128];
        let n = forms::put_form(
            &mut more,
            b" (# blocks with a ramp pending, of # frames, left out)",
            &[p.ramp_blocks, p.ramp_frames],
        );
        let k = front_of(&more, n);
        self.write_figures(sys, b"the rounding of 1/ratio: ", p.rounding, &more[..k])
    }

    // What the pass is off by, what it may be off by, and what it would be off by for other reasons.
    fn write(self, sys: &mut System, p: PassLine) -> bool {
        let l = p.line;
        let distance = samples_in(distance_of(l));
        let way = samples_in(positions::distance(l.exactly, p.start));
        let a = self.write_figures(sys, b"the running sum's distance: ", distance, b"");
        let b = self.write_bound(sys, l);
        let c = self.write_rounding(sys, p);
        let clock = b"one part in 10^9 of the clock: ";
        let d = self.write_figures(sys, clock, way / 1000000000.0, b"");
        a & b & c & d
    }
}

// Tells the line of a pass at its end; the rate is the input's, 0 where it is not known. Whether the log took it.
pub fn tell_line(sys: &mut System, log: Fd, log_file: bool, p: PassLine, rate: u64) -> bool {
    let to_log = Comparison {
        fd: log,
        reader: Reader::Log,
        rate: (rate > 0).then_some(rate),
    };
    if log_file {
        let to_operator = Comparison {
            fd: system::ERROR,
            reader: Reader::Operator,
            ..to_log
        };
        to_operator.write(sys, p);
    }
    let line = write_line(sys, log, p);
    line & to_log.write(sys, p)
}
