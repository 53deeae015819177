// The line and the log along the calls on the one record. The log stands in lent bytes.
use crate::texts::put_line as put_figures;
use lines::{Line, add_block, start_line};
use log_calls::{put_block, put_setting, put_start};
use log_words::put_hexes;
use log_writer::Refused;
use printer::{front_of, put_byte, put_bytes};

// The line, if there is one; how many bytes the log has; and whether a record has found no room, with which the
// log has ended for good.
#[derive(Clone, Copy)]
pub struct Live {
    pub line: Option<Line>,
    pub length: usize,
    pub full: bool,
}

// Before the first call: no line, and no log.
pub fn nothing() -> Live {
    Live {
        line: None,
        length: 0,
        full: true,
    }
}

// The record is another one, by no call: there is no line.
pub fn lost(before: Live) -> Live {
    Live {
        line: None,
        ..before
    }
}

// The log with a record behind it, which `put` puts at the front of the bytes that are left.
fn with<F: FnOnce(&mut [u8]) -> Result<usize, Refused>>(v: Live, log: &mut [u8], put: F) -> Live
    requires { F.IsAlwaysCallable put }
{
    if v.full {
        return v;
    }
    let at = front_of(log, v.length);
    match put(&mut log[at..]) {
        Ok(n) => Live {
            length: v.length.saturating_add(n),
            ..v
        },
        Err(_) => Live { full: true, ..v },
    }
}

// An accepted construction and the index that it left: a line and a log begin.
pub fn construction(index: f64, log: &mut [u8]) -> Live {
    let begun = Live {
        line: start_line(index).ok(),
        length: 0,
        full: false,
    };
    with(begun, log, |out: &mut [u8]| put_start(1, index, out))
}

// An accepted reset and the index that it left: a line begins, and the log goes on.
pub fn reset(before: Live, index: f64, log: &mut [u8]) -> Live {
    let begun = Live {
        line: start_line(index).ok(),
        ..before
    };
    with(begun, log, |out: &mut [u8]| put_start(4, index, out))
}

// An accepted setting.
pub fn setting(v: Live, what: u64, value: u64, log: &mut [u8]) -> Live {
    with(v, log, |out: &mut [u8]| put_setting(what, value, out))
}

// The size of an accepted block, which is at most 65,536.
fn size_of(n: usize) -> u32 {
    n.min(65537) as u32
}

// The line with a block, if there is one and it goes on.
fn line_after(
    line: Option<Line>,
    output: usize,
    input: usize,
    t: f64,
    d: f64,
    index: f64,
) -> Option<Line> {
    add_block(line?, size_of(output), size_of(input), t, d, index).ok()
}

// An accepted block: its sizes, its starting step and increment, and the index that it left.
pub fn block(
    before: Live,
    output: usize,
    input: usize,
    t: f64,
    d: f64,
    index: f64,
    log: &mut [u8],
) -> Live {
    let v = Live {
        line: line_after(before.line, output, input, t, d, index),
        ..before
    };
    with(
        v,
        log,
        |out: &mut [u8]| put_block(output, input, t, d, index, out),
    )
}

// The line, or `none`.
pub fn put_line(out: &mut [u8], v: Live) -> usize {
    let Some(line) = v.line else {
        return put_bytes(out, 0, b"none");
    };
    let p = put_bytes(out, 0, b"ok ");
    put_figures(out, p, line)
}

// The log's bytes, two digits each.
pub fn put_log(out: &mut [u8], v: Live, log: &[u8]) -> usize {
    let n = front_of(log, v.length);
    let p = put_bytes(out, 0, b"ok ");
    if n == 0 {
        return put_byte(out, p, 45);
    }
    put_hexes(out, p, log, 0, n)
}
