// Lines with places for numbers: a form is a text in which `#` stands for the next number in decimal and
// `$` for the float whose bits the next number is, as a decimal and as its bits.
#![tactic(auto)]

ghost use Rattle.std.specs.Prelude.{◌≡◌, length, get_or};
ghost use Rattle.printer.specs.Put.{put_in, place_after};
ghost use Rattle.forms.specs.Forms.{mark_text, taken_by, place_to, line_to};

use printer::{front_of, put_byte, put_decimal};
use system::{Fd, System};
use values::put_value;

fn number_at(numbers: &[u64], k: usize) -> u64
    ensures { result ≡ get_or numbers.now k 0 }
{
    if k < numbers.len() { numbers[k] } else { 0 }
}

// What one byte of a form stands for.
fn put_mark(line: &mut [u8], at: usize, mark: u8, n: u64) -> usize
    ensures place { result ≡ place_after (length line.old) at (length (mark_text mark n)) }
    ensures put { line.new ≡ put_in line.old at (mark_text mark n) }
{
    if mark == 35 {
        return put_decimal(line, at, n);
    }
    if mark == 36 {
        return put_value(line, at, text::of_bits(n));
    }
    put_byte(line, at, mark)
}

// How many numbers it takes.
fn taken_by(mark: u8) -> usize
    ensures { result ≡ taken_by mark }
{
    if (mark == 35) | (mark == 36) { 1 } else { 0 }
}

// Puts the form with its numbers at the front of the line, and answers the place behind it. What has no
// room is left out; a number that is not there is 0.
pub fn put_form(line: &mut [u8], form: &[u8], numbers: &[u64]) -> usize
    ensures place { result ≡ place_to (length line.old) form.now numbers.now (length form.now) }
    ensures put { line.new ≡ line_to line.old form.now numbers.now (length form.now) }
{
    let mut at = 0;
    let mut k = 0;
    for i in 0..form.len() {
        let mark = form[i];
        at = put_mark(line, at, mark, number_at(numbers, k));
        k += taken_by(mark);
    }
    at
}

// Writes the form with its numbers, up to 512 bytes of it.
pub fn write_form(sys: &mut System, fd: Fd, form: &[u8], numbers: &[u64]) -> bool {
    let mut line = [0u8; 512];
    let n = put_form(&mut line, form, numbers);
    let k = front_of(&line, n);
    sys.write_all(fd, &line[..k])
}
