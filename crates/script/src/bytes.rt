// Bytes as words: two hex digits each, run together, or `-` for none.
use text::digit_of;

// The most bytes of a line; what is lent behind them is not theirs.
pub const MOST: usize = 131072;

// What a word has come to as bytes, behind those of the words before it: nothing yet, a lone `-`, so many
// bytes in all, so many and the first digit of the next, or that it is none or too long. That is a state of the
// reading as the others are, so an Option around them would be no plainer.
#[derive(Clone, Copy)]
pub enum Bytes {
    Start(usize),
    Dash(usize),
    Whole(usize),
    Half(usize, u64),
    Bad,
}

// Behind so many bytes.
pub fn begin_bytes(wanted: bool, before: usize) -> Bytes {
    if wanted {
        return Bytes::Start(before);
    }
    Bytes::Bad
}

// After the first digit of the byte at the place k.
fn first_digit(k: usize, digit: u64) -> Bytes {
    if digit < 16 {
        return Bytes::Half(k, digit);
    }
    Bytes::Bad
}

// After its second, with which it is stored.
fn second_digit(bytes: &mut [u8], k: usize, high: u64, digit: u64) -> Bytes {
    if digit > 15 {
        return Bytes::Bad;
    }
    if k >= MOST {
        return Bytes::Bad;
    }
    if k >= bytes.len() {
        return Bytes::Bad;
    }
    bytes[k] = (high % 16 * 16 + digit) as u8;
    Bytes::Whole(k + 1)
}

// One byte of the word more.
pub fn bytes_step(bytes: &mut [u8], read: Bytes, byte: u8) -> Bytes {
    let digit = digit_of(byte);
    match read {
        Bytes::Start(k) => {
            if byte == 45 {
                Bytes::Dash(k)
            } else {
                first_digit(k, digit)
            }
        }
        Bytes::Whole(k) => first_digit(k, digit),
        Bytes::Half(k, high) => second_digit(bytes, k, high, digit),
        _ => Bytes::Bad,
    }
}

// The word has ended: the number of the bytes in all.
pub fn bytes_done(read: Bytes) -> Option<u64> {
    match read {
        Bytes::Dash(k) => Some(k as u64),
        Bytes::Whole(k) => Some(k as u64),
        _ => None,
    }
}
