// A double to four digits: 0.1250 from 0.001 up to 10000, beyond that 4.021e-8.
use printer::{front_of, put_byte, put_bytes, put_decimal};

// A size from 1 to 10 and its power of ten, 400 standing for none.
#[derive(Clone, Copy)]
struct Scaled {
    x: f64,
    e: u64,
}

// Four digits as a number, and the power of ten of the first.
#[derive(Clone, Copy)]
struct Digits {
    m: u64,
    e: u64,
}

fn scale_step(s: Scaled) -> Scaled {
    if s.x >= 10.0 {
        if s.e < 800 {
            return Scaled {
                x: s.x / 10.0,
                e: s.e + 1,
            };
        }
    }
    if s.x < 1.0 {
        if s.e > 0 {
            return Scaled {
                x: s.x * 10.0,
                e: s.e - 1,
            };
        }
    }
    s
}

// No double is further than 324 powers of ten from 1.
fn scale(x: f64) -> Scaled {
    let mut s = Scaled { x, e: 400 };
    for i in 0..325 {
        s = scale_step(s);
    }
    s
}

// The whole part of an x from 1 up to 2^53.
fn whole_of(x: f64) -> u64 {
    let bits = text::bits_of(x);
    let e = bits / 4503599627370496;
    if e < 1023 {
        return 0;
    }
    if e > 1075 {
        return 0;
    }
    (bits % 4503599627370496 + 4503599627370496) >> (1075 - e)
}

fn digits_of(s: Scaled) -> Digits {
    let m = whole_of(s.x * 1000.0 + 0.5);
    if m >= 10000 {
        if s.e < 900 {
            return Digits {
                m: 1000,
                e: s.e + 1,
            };
        }
    }
    Digits { m, e: s.e }
}

// So many zeros, 2 at most.
fn put_zeros(out: &mut [u8], at: usize, n: u64) -> usize {
    if n == 0 {
        return at;
    }
    let next = put_byte(out, at, 48);
    if n == 1 {
        return next;
    }
    put_byte(out, next, 48)
}

// The digits with a point behind the first k.
fn put_parted(out: &mut [u8], at: usize, digits: &[u8], k: usize) -> usize {
    let end = front_of(digits, k);
    let point = put_bytes(out, at, &digits[..end]);
    let behind = put_byte(out, point, 46);
    put_bytes(out, behind, &digits[end..])
}

// The four digits with a point behind the first k, none behind the last.
fn put_pointed(out: &mut [u8], at: usize, m: u64, k: usize) -> usize {
    if k >= 4 {
        return put_decimal(out, at, m);
    }
    let mut digits = [0u8; 4];
    big::put_digits(big::of_u64(m), &mut digits);
    put_parted(out, at, &digits, k)
}

// A power of ten behind an `e`.
fn put_power(out: &mut [u8], at: usize, e: u64) -> usize {
    if e >= 400 {
        let next = put_byte(out, at, 101);
        return put_decimal(out, next, e - 400);
    }
    let next = put_bytes(out, at, b"e-");
    put_decimal(out, next, 400 - e)
}

fn put_four(out: &mut [u8], at: usize, d: Digits) -> usize {
    let e = d.e;
    if (e < 397) | (e > 403) {
        let next = put_pointed(out, at, d.m, 1);
        return put_power(out, next, e);
    }
    if e >= 400 {
        return put_pointed(out, at, d.m, (e - 399) as usize);
    }
    let point = put_bytes(out, at, b"0.");
    let first = put_zeros(out, point, 399 - e);
    put_decimal(out, first, d.m)
}

// A size that is not 0.
fn put_size(out: &mut [u8], at: usize, x: f64) -> usize {
    if x - x != 0.0 {
        return put_bytes(out, at, b"inf");
    }
    put_four(out, at, digits_of(scale(x)))
}

pub fn put_number(out: &mut [u8], at: usize, x: f64) -> usize {
    if x != x {
        return put_bytes(out, at, b"NaN");
    }
    if x == 0.0 {
        return put_byte(out, at, 48);
    }
    if x < 0.0 {
        let next = put_byte(out, at, 45);
        return put_size(out, next, -x);
    }
    put_size(out, at, x)
}

// The number and, behind it, its bits.
pub fn put_with_bits(out: &mut [u8], at: usize, x: f64) -> usize {
    let next = put_number(out, at, x);
    let digits = put_bytes(out, next, b" x");
    printer::put_bits(out, digits, x)
}
