// The table, built in an area of its own.
ghost use Rattle.std.specs.Prelude.{◌≡◌, ◌≤◌, length};
ghost use Rattle.table.specs.Entries.{entries_of};

use crate::keep::keep;
use crate::words::Words;
use system::System;

// How many entries the table has; 0 where there would be too many: an empty area is refused.
fn entries_of(points: usize, factor: usize) -> usize
    ensures { (result ≤ 65536) × (result ≡ entries_of points factor) }
{
    if factor == 0 {
        return 0;
    }
    if points > 65536 / factor {
        return 0;
    }
    points * factor
}

// Says what is taken. No refusal but 11 comes here.
fn tell_refused(sys: &mut System, number: u64)
    requires { number ≡ 11 }
{
    forms::write_form(
        sys,
        system::ERROR,
        b"table: refused #: points times factor must be 2 to 65536, the cutoff above 0 and at most 1\n",
        &[number],
    );
}

// Builds the table on the front of an area that holds every table, and keeps it.
fn build(sys: &mut System, w: Words, area: &mut [f64]) -> bool
    requires { 65536 ≤ length area.old }
{
    let n = entries_of(w.points, w.factor);
    let table = &mut area[..n];
    let window = w.window;
    match sincs::make_sincs(w.points, w.factor, w.cutoff, window, table) {
        Err(r) => {
            tell_refused(sys, error::number(r));
            false
        }
        Ok(()) => keep(sys, w, table),
    }
}

// The table that the words ask for; whether it was built and kept.
pub fn make(sys: &mut System, w: Words) -> bool {
    let mut area = [0.0; 65536];
    build(sys, w, &mut area)
}
