// The plan's file, read line by line into a buffer that the caller lends.
ghost use Rattle.std.specs.Prelude.{◌+◌, ◌≤◌, length};

use crate::entries::{Entry, entry_of};
use samples::least;
use system::{Fd, System, brought};

// Where the reading stands: the bytes at `at` up to `end` of the buffer are not yet used; `line` is the number
// of the line read last; `ended` says that there is no more to read, `failed` that a read failed.
#[derive(Clone, Copy)]
pub struct Cursor {
    pub at: usize,
    pub end: usize,
    pub line: u64,
    pub ended: bool,
    pub failed: bool,
}

// Why a plan is not read on: a line that says nothing that it could, or a read that failed.
#[derive(Clone, Copy, PartialEq, Eq, Debug)]
pub enum Unread {
    Bad,
    Failed,
}

// The next change, never a blank one, or none where the file is over; and where the reading then stands.
#[derive(Clone, Copy)]
pub struct Step {
    pub next: Result<Option<Entry>, Unread>,
    pub cursor: Cursor,
}

// Nothing is read yet.
pub fn start() -> Cursor {
    Cursor {
        at: 0,
        end: 0,
        line: 0,
        ended: false,
        failed: false,
    }
}

// Any cursor as one of a buffer of `size` bytes.
fn kept(c: Cursor, size: usize) -> Cursor
    ensures { (result.at ≤ result.end) × (result.end ≤ size) }
{
    let end = least(c.end, size);
    Cursor {
        at: least(c.at, end),
        end,
        line: c.line,
        ended: c.ended,
        failed: c.failed,
    }
}

// A line has been read: what it says, and `at` is behind it.
fn told(e: Option<Entry>, c: Cursor, at: usize, ended: bool) -> Step {
    let cursor = Cursor {
        at,
        end: c.end,
        line: c.line.wrapping_add(1),
        ended,
        failed: c.failed,
    };
    Step {
        next: e.map(Some).ok_or(Unread::Bad),
        cursor,
    }
}

// The line from the cursor to the place `to`; `at` is behind its end. Behind one that is too long nothing is read.
fn line_read(bytes: &[u8], c: Cursor, to: usize, at: usize) -> Step
    requires { (c.at ≤ to) × (to ≤ length bytes.now) }
{
    let from = c.at;
    if to - from > 255 {
        return told(None, c, c.end, true);
    }
    told(entry_of(&bytes[from..to]), c, at, c.ended)
}

// One read behind the bytes that are held.
fn read_on(sys: &mut System, fd: Fd, bytes: &mut [u8], held: usize, line: u64) -> Cursor
    requires { held ≤ length bytes.old }
{
    let got = sys.read(fd, &mut bytes[held..]);
    let n = brought(got);
    Cursor {
        at: 0,
        end: held + n,
        line,
        ended: n == 0,
        failed: got.is_err(),
    }
}

// No line's end is in the buffer: more is read, if a line may be so long.
fn more(sys: &mut System, fd: Fd, bytes: &mut [u8], c: Cursor) -> Step
    requires { (c.at ≤ c.end) × (c.end ≤ length bytes.old) }
{
    let held = c.end - c.at;
    if (held > 255) | (held == bytes.len()) {
        return told(None, c, c.end, true);
    }
    bytes.copy_within(c.at..c.end, 0);
    let cursor = read_on(sys, fd, bytes, held, c.line);
    Step {
        next: Ok(Some(Entry::Blank)),
        cursor,
    }
}

// There is no more to read: a last line without its end, or nothing.
fn last_read(bytes: &[u8], c: Cursor) -> Step
    requires { (c.at ≤ c.end) × (c.end ≤ length bytes.now) }
{
    if c.failed {
        return Step {
            next: Err(Unread::Failed),
            cursor: c,
        };
    }
    if c.at == c.end {
        return Step {
            next: Ok(None),
            cursor: c,
        };
    }
    line_read(bytes, c, c.end, c.end)
}

// One line, or one read; a blank entry where there is nothing to tell yet.
fn turn(sys: &mut System, fd: Fd, bytes: &mut [u8], c: Cursor) -> Step {
    let k = kept(c, bytes.len());
    let at = k.at;
    let end = k.end;
    if let Some(n) = scan::find(&bytes[at..end], b'\n') {
        return line_read(bytes, k, at + n, at + n + 1);
    }
    if k.ended {
        return last_read(bytes, k);
    }
    more(sys, fd, bytes, k)
}

// The next change of the plan. Nothing says that a file ends, so the turns are of a number that no run uses up.
pub fn next_entry(sys: &mut System, fd: Fd, bytes: &mut [u8], c: Cursor) -> Step {
    let mut s = Step {
        next: Ok(Some(Entry::Blank)),
        cursor: c,
    };
    for _ in 0..u64::MAX {
        let Ok(Some(Entry::Blank)) = s.next else {
            return s;
        };
        s = turn(sys, fd, bytes, s.cursor);
    }
    s
}
