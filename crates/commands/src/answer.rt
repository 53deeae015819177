// How an answer is put into a buffer, a space before each word but the first.
use crate::said::{Head, Said, Word};
use printer::{front_of, put_area, put_bits, put_byte, put_bytes, put_decimal};

// The first word, at the start of the buffer.
fn put_head(out: &mut [u8], head: Head) -> usize {
    match head {
        Head::Bad => put_bytes(out, 0, b"bad"),
        Head::Refused => put_bytes(out, 0, b"ref"),
        Head::Ok => put_bytes(out, 0, b"ok"),
    }
}

// An area's first samples.
fn put_front(out: &mut [u8], at: usize, area: &[f64], n: usize) -> usize {
    let k = front_of(area, n);
    put_area(out, at, &area[..k])
}

fn put_word(out: &mut [u8], at: usize, word: Word, area: &[f64]) -> usize {
    if let Word::Joined(x) = word {
        return put_bits(out, at, x);
    }
    let p = put_byte(out, at, b' ');
    match word {
        Word::Float(x) | Word::Joined(x) => put_bits(out, p, x),
        Word::Whole(n) => put_decimal(out, p, n),
        Word::Below(n) => {
            let digits = put_byte(out, p, b'-');
            put_decimal(out, digits, n)
        }
        Word::Area(n) => put_front(out, p, area, n),
    }
}

// The whole answer to a line, at the start of the buffer; how many bytes it has. The samples that it shows
// are the first of `area`.
#[inline(always)]
pub fn put_answer(out: &mut [u8], said: &Said, area: &[f64]) -> usize {
    let mut at = put_head(out, said.head);
    for word in said.words.iter().take(said.count).flatten() {
        at = put_word(out, at, *word, area);
    }
    at
}
