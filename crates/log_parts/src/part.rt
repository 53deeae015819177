// The part of the log that stands in the buffer.
ghost use Rattle.std.specs.Prelude.{◌≡◌, ◌+◌, ◌-◌, ◌<◌, ◌≤◌, length, take, drop};

use system::{Fd, System, brought};

// The bytes up to `end` were read, and those up to `at` are walked. `last` says that the log ends there, since
// it does or since a read failed, as `failed` says.
#[derive(Clone, Copy)]
pub struct Part {
    pub at: usize,
    pub end: usize,
    pub last: bool,
    pub failed: bool,
}

// n bytes more are walked. Only our own crates call this.
pub fn passed(p: Part, n: usize) -> Part
    requires { p.at + n ≤ p.end }
    ensures { (result.at ≡ p.at + n) × (result.end ≡ p.end) × (result.last ≡ p.last) }
{
    let mut q = p;
    q.at = p.at + n;
    q
}

// The bytes that are not walked, at the front, and more of the log behind them. Only our own crates call this.
pub fn more(sys: &mut System, p: Part, fd: Fd, buf: &mut [u8]) -> Part
    requires { (p.at ≤ p.end) × (p.end ≤ length buf.old) × (p.end - p.at < 71) × (71 ≤ length buf.old) }
    ensures at_value { (result.at ≡ 0) × (p.end - p.at ≤ result.end) × (result.end ≤ length buf.new) }
    ensures buf_after { take (p.end - p.at) buf.new ≡ drop p.at (take p.end buf.old) }
{
    let at = p.at;
    let end = p.end;
    buf.copy_within(at..end, 0);
    let n = end - at;
    let got = sys.read(fd, &mut buf[n..]);
    let count = brought(got);
    Part {
        at: 0,
        end: n + count,
        last: count == 0,
        failed: got.is_err(),
    }
}
