// What a record of a log, and a log's end, do to the sheet.
ghost use Rattle.std.specs.Prelude.{◌≡◌, ◌+◌, ◌<◌, ◌≤◌, length};
ghost use Rattle.samples.specs.Samples.{little_from};
ghost use Rattle.lines.specs.Lines.{figures_of, going_of};
ghost use Rattle.sheets.specs.Sheet.{page_of, judged_of, row_of, sums_of, current_of, closing, bad, line_row, with_total, with_line, start, block, block_on, judge, log_end};

use crate::totals::with_line;
use crate::{Sheet, Told, Total, Turn};
use lines::{End, Line, add_block, start_line};
use samples::sample_at;

// What is told of the open line when it ends so, if one is open.
fn line_told(s: Sheet, end: End) -> Option<Told>
    ensures { row_of result ≡ line_row (current_of s.line) end }
{
    let line = s.line?;
    Some(Told {
        line: Some(line),
        end,
    })
}

// The sheet with no line open.
fn without_line(s: Sheet) -> Sheet
    ensures { page_of result ≡ closing (page_of s) }
{
    Sheet {
        closed: s.total,
        line: None,
        ..s
    }
}

// A record that is no call: it ends the open line, and nothing more of that log is read.
fn ended(s: Sheet, end: End) -> Turn
    ensures { judged_of result ≡ bad (page_of s) end }
{
    Turn {
        sheet: without_line(s),
        told: Some(Told { line: s.line, end }),
        reads: false,
    }
}

// The sheet with an open line, where the total with it is within its range.
fn with_total(s: Sheet, closed: Total, told: Option<Told>, l: Line) -> Turn
    ensures { judged_of result ≡ with_total (page_of s) (sums_of closed) (row_of told) (figures_of l) }
{
    match with_line(closed, l) {
        Some(total) => Turn {
            sheet: Sheet {
                closed,
                total,
                line: Some(l),
            },
            told,
            reads: true,
        },
        None => ended(s, End::Range),
    }
}

// The same of a line that may have ended.
fn with_lined(s: Sheet, closed: Total, told: Option<Told>, lined: Result<Line, End>) -> Turn
    ensures { judged_of result ≡ with_line (page_of s) (sums_of closed) (row_of told) (going_of lined) }
{
    match lined {
        Ok(l) => with_total(s, closed, told, l),
        Err(end) => ended(s, end),
    }
}

// Only this crate calls this function.
fn wide(byte: u8) -> u32
    ensures { (result ≡ byte) × (result < 256) }
{
    byte as u32
}

// Four bytes of a payload as a number, the lowest first. Only this crate calls this function.
fn size_at(payload: &[u8], at: usize) -> u32
    requires { at + 4 ≤ length payload.now }
    ensures { result ≡ little_from payload.now at 4 }
{
    let a = wide(payload[at]);
    let b = wide(payload[at + 1]);
    let c = wide(payload[at + 2]);
    let d = wide(payload[at + 3]);
    a + 256 * (b + 256 * (c + 256 * d))
}

// A construction or a reset closes the open line and starts one.
fn take_start(s: Sheet, payload: &[u8]) -> Turn
    ensures { judged_of result ≡ start (page_of s) payload.now }
{
    if payload.len() != 8 {
        return ended(s, End::Payload);
    }
    with_lined(
        s,
        s.total,
        line_told(s, End::Closed),
        start_line(sample_at(payload, 0)),
    )
}

// A block is added to the open line.
fn take_block(s: Sheet, line: Line, payload: &[u8]) -> Turn
    ensures { judged_of result ≡ block (page_of s) (figures_of line) payload.now }
{
    if payload.len() != 32 {
        return ended(s, End::Payload);
    }
    let n = size_at(payload, 0);
    let c = size_at(payload, 4);
    let t = sample_at(payload, 8);
    let d = sample_at(payload, 16);
    let index = sample_at(payload, 24);
    with_lined(s, s.closed, None, add_block(line, n, c, t, d, index))
}

// A block where a line is open.
fn block_on(s: Sheet, payload: &[u8]) -> Turn
    ensures { judged_of result ≡ block_on (page_of s) (current_of s.line) payload.now }
{
    match s.line {
        Some(line) => take_block(s, line, payload),
        None => ended(s, End::Early),
    }
}

// The sheet after a record of a log, by the record's kind and payload. A setting does nothing.
pub fn take_record(s: Sheet, kind: u8, payload: &[u8]) -> Turn
    ensures { judged_of result ≡ judge (page_of s) kind payload.now }
{
    if kind == 3 {
        return block_on(s, payload);
    }
    if kind == 2 {
        return Turn {
            sheet: s,
            told: None,
            reads: true,
        };
    }
    take_start(s, payload)
}

// The sheet after a log's last record: its line, where one is open, ends.
pub fn end_log(s: Sheet) -> Turn
    ensures { judged_of result ≡ log_end (page_of s) }
{
    Turn {
        sheet: without_line(s),
        told: line_told(s, End::Open),
        reads: false,
    }
}
