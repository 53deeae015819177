// The table in its file, and its line.
ghost use Rattle.std.specs.Prelude.{◌≡◌};
ghost use Rattle.sincs.specs.Table.{sincs_table};

use crate::named::put_name;
use crate::words::Words;
use printer::{front_of, put_bytes};
use system::System;
use table_sum::TableSum;
use windows::WindowFunction;

// Why something could not be written; the answer is that it was not.
fn failed(sys: &mut System, what: &[u8], name: &[u8]) -> bool {
    programs::say(sys, what);
    sys.fail(name);
    false
}

// Writes the table into the file of that name. It is closed before anything else is written, since it may
// stand in the place of a standard stream that was closed.
fn write_file(sys: &mut System, name: &[u8], table: &[f64]) -> bool {
    let Ok(fd) = sys.open_overwrite(name) else {
        return failed(sys, b"table: cannot open ", name);
    };
    let n = table.len();
    let written = written::write_frames(sys, fd, table, 1, n, 0, n);
    let closed = sys.close(fd).is_ok();
    if written & closed {
        return true;
    }
    failed(sys, b"table: not all of the table was written to ", name)
}

// The digits of the sum, and the end of the line.
fn digits_of(sum: TableSum) -> [u8; 33] {
    let mut digits = [10u8; 33];
    text::put_hex(&mut digits, 0, sum.first);
    text::put_hex(&mut digits, 16, sum.second);
    digits
}

// The line as a form, with places for its four numbers.
fn put_line(form: &mut [u8], window: WindowFunction, sum: TableSum) -> usize {
    let digits = digits_of(sum);
    let at = put_bytes(form, 0, b"points # factor # cutoff $ window ");
    let behind = put_name(form, at, window);
    let end = put_bytes(form, behind, b" entries # sum ");
    put_bytes(form, end, &digits)
}

// The line, by one write; whether it was written.
fn write_line(sys: &mut System, w: Words, table: &[f64]) -> bool {
    let window = w.window;
    let numbers = [
        w.points as u64,
        w.factor as u64,
        text::bits_of(w.cutoff),
        table.len() as u64,
    ];
    let mut form = [0u8; 128];
    let n = put_line(&mut form, window, table_sum::sum_of(table));
    let k = front_of(&form, n);
    forms::write_form(sys, system::OUTPUT, &form[..k], &numbers)
}

// Keeps the table of the words in the file that --out names, which must not be standard output too, and
// writes the line; whether all went well.
pub fn keep(sys: &mut System, w: Words, table: &[f64]) -> bool
    requires { table.now ≡ sincs_table w.points w.factor w.cutoff w.window }
{
    let Some(out) = w.common.out else {
        return false;
    };
    let word = programs::word_at(sys, out);
    let name = word.as_bytes();
    let file = file_facts::facts_at(sys, name);
    if file_facts::same_file(file, file_facts::facts_of(sys, system::OUTPUT)) {
        programs::say(
            sys,
            b"table: --out names standard output, where the table's line goes: nothing was written\n",
        );
        return false;
    }
    if !write_file(sys, name, table) {
        return false;
    }
    if !write_line(sys, w, table) {
        sys.fail(b"table: the table was written, and its line on standard output was not");
        return false;
    }
    true
}

// Writes the status and a line feed into the file that --status names, if one is named. A file that holds
// more than a status is left as it is: it may be the table.
pub fn write_status(sys: &mut System, w: Words, status: u64) {
    let Some(status_at) = w.common.status else {
        return;
    };
    let word = programs::word_at(sys, status_at);
    let name = word.as_bytes();
    let file = file_facts::facts_at(sys, name);
    if file.map_or(0, |facts| facts.size) > 2 {
        return;
    }
    let fd = sys.open_overwrite(name);
    programs::put_status(sys, fd.ok(), status);
}
