// The call script: reads lines on standard input and answers each with one line on standard output,
// which is written before the next line is read.
#![tactic(auto)]

ghost use Rattle.std.specs.Prelude.{◌≡◌, length};

use commands::{begin, serve};
use printer::{front_of, put_byte};
use system::{OUTPUT, System};

// The answer of so many bytes with its newline, all of it written. False where there is no answer since
// the input is over, or where a write has failed.
fn written(sys: &mut System, out: &mut [u8], end: usize) -> bool {
    if end == 0 {
        return false;
    }
    let after = put_byte(out, end, 10);
    let n = front_of(out, after);
    sys.write_all(OUTPUT, &out[..n])
}

// Nothing says that the input ends, so it may have as many lines as can be counted.
fn serve_all(
    sys: &mut System,
    buf: &mut [u8],
    out: &mut [u8],
    input: &mut [f64],
    output: &mut [f64],
    work: &mut [f64],
    table: &mut [f64],
    bytes: &mut [u8],
) {
    let mut s = begin();
    for _ in 0..u64::MAX {
        s = serve(sys, s, buf, out, input, output, work, table, bytes);
        if !written(sys, out, s.end) {
            return;
        }
    }
}

// An area has up to 131,072 samples, and its text 16 times as many bytes. 1,024 bytes more hold the
// other words of an answer.
fn answer_buffer() -> [u8; 2098176]
    ensures { 2098176 ≡ length result }
{
    [0; 2098176]
}

fn main(rt: HostRuntime) {
    let mut system = System::new(rt);
    let sys = &mut system;
    let mut buf = io::large_buffer();
    let mut out = answer_buffer();
    let mut input = [0.0; 131072];
    let mut output = [0.0; 131072];
    let mut work = [0.0; 131072];
    let mut table = [0.0; 262144];
    let mut bytes = [0; 262144];
    serve_all(
        sys,
        &mut buf,
        &mut out,
        &mut input,
        &mut output,
        &mut work,
        &mut table,
        &mut bytes,
    );
}
