// The table of a pass by a sinc: read from a file or built, and named in the log. That each function is safe and
// ends is proved.
#![tactic(auto)]

use options::{Options, Sinc, say, say_refused, say_start};
use printer::front_of;
use samples::least;
use system::{Fd, System};

// How many entries the table has; a polynomial has none.
pub fn entries_of(o: &Options) -> usize {
    match o.sinc {
        Some(sinc) => sinc.points.saturating_mul(sinc.factor),
        None => 0,
    }
}

// The cutoff that was given, or the one that suits the points and the window.
fn cutoff_of(o: &Options, sinc: Sinc) -> f64 {
    match o.cutoff {
        Some(cutoff) => cutoff,
        None => windows::calculate_cutoff(sinc.points, o.window()).unwrap_or(0.0),
    }
}

// Builds the table; whether that is done. A refusal, and a table that is too large, are told.
fn is_built(sys: &mut System, o: &Options, sinc: Sinc, table: &mut [f64]) -> bool {
    if table.len() > 65536 {
        say_start(sys);
        say(
            sys,
            b"a table of up to 65536 entries, POINTS times FACTOR, is built here: --table FILE takes a larger one\n",
        );
        return false;
    }
    match sincs::make_sincs(
        sinc.points,
        sinc.factor,
        cutoff_of(o, sinc),
        o.window(),
        table,
    ) {
        Ok(()) => true,
        Err(r) => {
            say_start(sys);
            say_refused(sys, r);
            false
        }
    }
}

// What was read of a file: so many entries, the bytes of a broken one behind them, whether there are more, and
// whether a read failed.
#[derive(Clone, Copy)]
struct Got {
    entries: u64,
    left: u64,
    more: bool,
    failed: bool,
}

// Reads on behind the entries that are there, as many as a read takes.
fn read_part(sys: &mut System, fd: Fd, table: &mut [f64], held: &mut [f64], g: Got) -> Got {
    let at = front_of(table, g.entries as usize);
    let n = least(65536, table.len() - at);
    let r = blocks::read_frames(sys, fd, &mut table[at..at + n], held, g.more, 1, n);
    Got {
        entries: tally::plus(at as u64, r.frames as u64),
        left: if r.left > 0 { r.left as u64 } else { g.left },
        more: r.held,
        failed: g.failed | r.failed,
    }
}

// Four parts make the largest table.
fn read_all(sys: &mut System, fd: Fd, table: &mut [f64]) -> Got {
    let mut held = [0.0; 1];
    let r = blocks::read_first(sys, fd, &mut held, 1);
    let none = Got {
        entries: 0,
        left: r.left as u64,
        more: r.held,
        failed: r.failed,
    };
    let first = read_part(sys, fd, table, &mut held, none);
    let second = read_part(sys, fd, table, &mut held, first);
    let third = read_part(sys, fd, table, &mut held, second);
    read_part(sys, fd, table, &mut held, third)
}

fn tell_length(sys: &mut System, sinc: Sinc, g: Got, wanted: u64) {
    let bytes = (g.entries << 3).wrapping_add(g.left);
    let numbers = [bytes, sinc.points as u64, sinc.factor as u64, wanted << 3];
    say_start(sys);
    if g.more {
        say(sys, b"--table: the file has more than the ");
    } else {
        say(sys, b"--table: the file has ");
    }
    forms::write_form(
        sys,
        system::ERROR,
        b"# bytes, and a table of # points with the factor # has #\n",
        &numbers,
    );
}

// Reads the table; whether it has the right length, and nothing else is in the file.
fn is_read(sys: &mut System, sinc: Sinc, fd: Fd, table: &mut [f64]) -> bool {
    let g = read_all(sys, fd, table);
    let wanted = table.len() as u64;
    if g.failed {
        sys.fail(b"resample: reading the table");
        return false;
    }
    if (g.entries == wanted) & (g.left == 0) & !g.more {
        return true;
    }
    tell_length(sys, sinc, g, wanted);
    false
}

// Whether the table stands in the area, from the file or built; a polynomial needs none.
pub fn is_made(sys: &mut System, o: &Options, fd: Option<Fd>, table: &mut [f64]) -> bool {
    let Some(sinc) = o.sinc else {
        return true;
    };
    match fd {
        Some(fd) => is_read(sys, sinc, fd, table),
        None => is_built(sys, o, sinc, table),
    }
}

fn write_sum(sys: &mut System, log: Fd, table: &[f64]) -> bool {
    let sum = table_sum::sum_of(table);
    let mut digits = [0u8; 32];
    text::put_hex(&mut digits, 0, sum.first);
    text::put_hex(&mut digits, 16, sum.second);
    let entries = forms::write_form(sys, log, b" entries # sum ", &[table.len() as u64]);
    entries & sys.write_all(log, &digits)
}

// The table's line in the log, as the program `table` has it; or its file in the place of cutoff and window.
pub fn write_line(sys: &mut System, o: &Options, log: Fd, table: &[f64]) -> bool {
    let Some(sinc) = o.sinc else {
        return true;
    };
    let numbers = [
        sinc.points as u64,
        sinc.factor as u64,
        text::bits_of(cutoff_of(o, sinc)),
    ];
    let sizes = forms::write_form(sys, log, b"table points # factor #", &numbers);
    if let Some(place) = o.table {
        let sum = write_sum(sys, log, table) & forms::write_form(sys, log, b" file ", &[]);
        let name = options::write_file_name(sys, log, place);
        return sizes & sum & name & sys.write_all(log, b"\n");
    }
    let cutoff = forms::write_form(sys, log, b" cutoff $ window ", &numbers[2..]);
    let window = options::write_window(sys, log, o.window());
    let sum = write_sum(sys, log, table);
    sizes & cutoff & window & sum & sys.write_all(log, b"\n")
}
