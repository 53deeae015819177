// A line of the sheet as a line of text.
use big::Big;
use bounded::Text;
use lines::{End, Line, distance_of, is_inside};
use position_text::{put_length, put_position, put_rounded_length, put_rounded_position};
use printer::front_of;
use sheets::Total;
use std::fmt::{self, Write};
use system::System;

// Room for a name of 4,096 bytes and the figures behind it, so that each piece is put.
type Row = Text<6144>;

// A byte of a name: one that would end the line or move the text is a `?`.
fn shown(byte: u8) -> u8 {
    if (byte < 32) | (byte == 127) {
        b'?'
    } else {
        byte
    }
}

// The word at the place `word`.
fn put_word(sys: &mut System, out: &mut Row, word: usize) -> fmt::Result {
    let name = programs::word_at(sys, word);
    for byte in name.as_bytes() {
        out.put(&[shown(*byte)])?;
    }
    Ok(())
}

// The digits that `put` puts at the front of an area; no position and no length has more.
fn put_digits<F: FnOnce(&mut [u8]) -> usize>(out: &mut Row, put: F) -> fmt::Result
    requires { F.IsAlwaysCallable put }
{
    let mut digits = [0u8; 70];
    let n = put(&mut digits);
    out.put(&digits[..front_of(&digits, n)])
}

// A position, rounded and exact.
fn put_place(out: &mut Row, b: Big) -> fmt::Result {
    put_digits(out, |area: &mut [u8]| put_rounded_position(area, 0, b))?;
    out.put(b" x")?;
    put_digits(out, |area: &mut [u8]| put_position(area, 0, b))
}

// A length, rounded and exact.
fn put_span(out: &mut Row, n: Big) -> fmt::Result {
    put_digits(out, |area: &mut [u8]| put_rounded_length(area, 0, n))?;
    out.put(b" x")?;
    put_digits(out, |area: &mut [u8]| put_length(area, 0, n))
}

// The counts and the two positions, of a line or of the total.
fn put_sums(out: &mut Row, t: Total) -> fmt::Result {
    write!(out, ": N {} B {} exact ", t.frames, t.blocks)?;
    put_place(out, t.exactly)?;
    out.put(b" stored ")?;
    put_place(out, t.stored)
}

fn put_figures(out: &mut Row, l: Line) -> fmt::Result {
    let sums = Total {
        frames: l.frames,
        blocks: l.blocks,
        exactly: l.exactly,
        stored: l.stored,
    };
    put_sums(out, sums)?;
    out.put(b" distance ")?;
    put_span(out, distance_of(l))?;
    out.put(b" bound ")?;
    put_span(out, l.most)?;
    out.put(if is_inside(l) {
        b" inside, ".as_slice()
    } else {
        b" OUTSIDE, ".as_slice()
    })
}

// The word of a record that is no call, the byte at which it stands, and what the word means.
fn put_bad(out: &mut Row, word: &str, place: u64, why: &str) -> fmt::Result {
    write!(
        out,
        "{word} at byte {place}: {why}; nothing behind it was read"
    )
}

// How a line ended. `cut` says that the log could not be read on.
fn put_end(out: &mut Row, end: End, place: u64, cut: bool) -> fmt::Result {
    match end {
        End::Open if cut => put_bad(out, "open", place, "the log could not be read on"),
        End::Open => out.put(b"open"),
        End::Closed => out.put(b"closed"),
        End::Early => put_bad(out, "early", place, "a block before any start"),
        End::Payload => put_bad(out, "payload", place, "a payload of another length"),
        End::Float => put_bad(
            out,
            "float",
            place,
            "a step, increment or index that is not finite or no multiple of 2^-192",
        ),
        End::Range => put_bad(
            out,
            "range",
            place,
            "a position would leave a signed 64-bit whole part, or a count 64 bits",
        ),
    }
}

// The line of that number in its log, by one write; whether it was written.
pub fn write_row(
    sys: &mut System,
    word: usize,
    number: u64,
    l: Line,
    end: End,
    place: u64,
    cut: bool,
) -> bool {
    let mut text = Row::new();
    let _ = put_word(sys, &mut text, word);
    let _ = write!(text, " line {number}");
    let _ = put_figures(&mut text, l);
    let _ = put_end(&mut text, end, place, cut);
    let _ = text.put(b"\n");
    sys.write_all(system::OUTPUT, text.as_bytes())
}

// A bad record where no line is open.
pub fn write_word(sys: &mut System, word: usize, end: End, place: u64) -> bool {
    let mut text = Row::new();
    let _ = put_word(sys, &mut text, word);
    let _ = text.put(b": ");
    let _ = put_end(&mut text, end, place, false);
    let _ = text.put(b"\n");
    sys.write_all(system::OUTPUT, text.as_bytes())
}

// The total, and whether the logs were read whole.
pub fn write_total(sys: &mut System, t: Total, whole: bool) -> bool {
    let mut text = Row::new();
    let _ = text.put(b"total");
    let _ = put_sums(&mut text, t);
    let _ = text.put(if whole {
        b" whole\n".as_slice()
    } else {
        b" NOT WHOLE\n".as_slice()
    });
    sys.write_all(system::OUTPUT, text.as_bytes())
}
