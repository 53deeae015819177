// The text of a line, of a row and of the total.
use big::Big;
use lines::{End, Line, distance_of, is_inside};
use position_text::{put_length, put_position};
use printer::{put_byte, put_bytes, put_decimal};
use sheets::Total;

// N B EXACT STORED
fn put_sums(
    out: &mut [u8],
    at: usize,
    frames: u64,
    blocks: u64,
    exactly: Big,
    stored: Big,
) -> usize {
    let p1 = put_decimal(out, at, frames);
    let p2 = put_byte(out, p1, 32);
    let p3 = put_decimal(out, p2, blocks);
    let p4 = put_byte(out, p3, 32);
    let p5 = put_position(out, p4, exactly);
    let p6 = put_byte(out, p5, 32);
    put_position(out, p6, stored)
}

// N B EXACT STORED DISTANCE in|out
pub fn put_line(out: &mut [u8], at: usize, l: Line) -> usize {
    let exactly = l.exactly;
    let stored = l.stored;
    let p1 = put_sums(out, at, l.frames, l.blocks, exactly, stored);
    let p2 = put_byte(out, p1, 32);
    let p3 = put_length(out, p2, distance_of(l));
    if is_inside(l) {
        return put_bytes(out, p3, b" in");
    }
    put_bytes(out, p3, b" out")
}

pub fn put_total(out: &mut [u8], at: usize, t: Total) -> usize {
    let exactly = t.exactly;
    let stored = t.stored;
    put_sums(out, at, t.frames, t.blocks, exactly, stored)
}

// How a line ended.
pub fn put_end(out: &mut [u8], at: usize, end: End) -> usize {
    match end {
        End::Open => put_bytes(out, at, b"open"),
        End::Closed => put_bytes(out, at, b"closed"),
        End::Early => put_bytes(out, at, b"early"),
        End::Payload => put_bytes(out, at, b"payload"),
        End::Float => put_bytes(out, at, b"float"),
        End::Range => put_bytes(out, at, b"range"),
    }
}
