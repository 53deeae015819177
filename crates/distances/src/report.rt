// What is printed of a pass.
use crate::account::Account;
use big::Big;
use lines::{Line, distance_of, is_inside};
use system::{OUTPUT, System};

// A word, a whole number in decimal, and the line's end.
fn line(sys: &mut System, word: &[u8], n: Big) {
    sys.write_all(OUTPUT, word);
    if big::is_negative(n) {
        sys.write_all(OUTPUT, b"-");
    }
    let mut text = [0u8; 78];
    big::put_digits(big::size_of(n), &mut text);
    let at = big::first_digit(&text);
    sys.write_all(OUTPUT, &text[at..]);
    sys.write_all(OUTPUT, b"\n");
}

fn print_figures(sys: &mut System, l: Line) {
    line(sys, b"N ", big::of_u64(l.frames));
    line(sys, b"B ", big::of_u64(l.blocks));
    line(sys, b"exact ", l.exactly);
    line(sys, b"stored ", l.stored);
    line(sys, b"distance ", distance_of(l));
    line(sys, b"bound ", l.most);
    if is_inside(l) {
        sys.write_all(OUTPUT, b"inside\n");
    } else {
        sys.write_all(OUTPUT, b"outside\n");
    }
}

// The figures of a pass; `refused` for one with a refused call or a line that ended, which no pass here has.
pub fn print(sys: &mut System, number: u64, a: Account) {
    let lined = a.lined;
    line(sys, b"pass ", big::of_u64(number));
    if !a.good {
        sys.write_all(OUTPUT, b"refused\n");
        return;
    }
    match lined {
        Ok(l) => print_figures(sys, l),
        Err(_) => {
            sys.write_all(OUTPUT, b"refused\n");
        }
    }
}
