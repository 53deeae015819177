// The windows, and the table that is kept.
use crate::record::{Change, Kept, area_length, copied, left};
use crate::said::{Said, area, ok, refused};
use printer::front_of;
use script::values::{Values, count_at, float_at, window_at};

// A window, in the front of an area. One that is longer than the area is refused whatever is lent.
pub fn window(values: Values, output: &mut [f64]) -> Said {
    let points = count_at(values, 0);
    let n = front_of(output, points);
    match window_points::make_window(points, window_at(values, 1), &mut output[..n]) {
        Ok(()) => area(ok(), n),
        Err(r) => refused(r),
    }
}

// A table of so many samples.
fn made(kept: Kept, len: usize) -> Change {
    let mut then = kept;
    then.table = len;
    left(then, area(ok(), len))
}

// A table, and a copy of it to show. One that is longer than its area is refused whatever is lent; a
// refusal leaves the table that was there.
pub fn sincs(kept: Kept, values: Values, output: &mut [f64], table: &mut [f64]) -> Change {
    let points = count_at(values, 0);
    let factor = count_at(values, 1);
    let n = front_of(table, area_length(factor, points, 0));
    let cutoff = float_at(values, 2);
    let window = window_at(values, 3);
    match sincs::make_sincs(points, factor, cutoff, window, &mut table[..n]) {
        Ok(()) => made(kept, copied(table, n, output)),
        Err(r) => left(kept, refused(r)),
    }
}

// Any table: its samples fill `input` first, and those that are left stand in `output`.
pub fn set_table(
    kept: Kept,
    values: Values,
    input: &[f64],
    output: &[f64],
    table: &mut [f64],
) -> Change {
    let n = front_of(table, count_at(values, 0));
    let first = front_of(input, n);
    let more = front_of(output, n - first);
    channel::load(table, 0, &input[..first], first, first);
    channel::load(table, first, &output[..more], more, more);
    let mut then = kept;
    then.table = first + more;
    left(then, ok())
}
