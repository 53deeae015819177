// The numbers on standard input.
use script::values::Values;
use system::{INPUT, System};

// The numbers so far, and the place of the one that is being read.
#[derive(Clone, Copy)]
struct Reading {
    values: Values,
    at: usize,
}

// Digits behind the eighth are not taken.
fn with_digit(n: u64, byte: u8) -> u64 {
    if n > 9999999 {
        return n;
    }
    n * 10 + (byte % 16) as u64
}

// A digit belongs to the number that is being read, and any other byte ends it.
fn with(r: Reading, byte: u8) -> Reading {
    let at = r.at;
    let mut next = r;
    if at < 16 {
        if byte.is_ascii_digit() {
            next.values[at] = with_digit(r.values[at], byte);
        } else {
            next.at = at + 1;
        }
    }
    next
}

// Up to 16 numbers, parted by one byte each.
fn numbers_in(text: &[u8]) -> Values {
    let mut r = Reading {
        values: [0; 16],
        at: 0,
    };
    for byte in text {
        r = with(r, *byte);
    }
    r.values
}

pub fn read(sys: &mut System) -> Values {
    let mut buf = io::buffer();
    let n = sys.read_full(INPUT, &mut buf);
    numbers_in(&buf[..n])
}
