// Runs a stored list of calls through the public calls, and counts the answers that are as stored. On
// standard input each line of the call script (docs/CALLS.md) is followed by a line with its answer:
// after `=` the crate's own, after `:` that of document 01 where the crate has none or another.
#![tactic(auto)]

mod expected;
mod report;

use commands::{Served, begin, serve};
use expected::compare;
use printer::front_of;
use report::{Tally, none_yet, print, with};
use system::System;

// The tally with the answer of a line, of which `end` bytes stand in `out`: the stored one stands next in the
// input. The input behind it is kept.
fn checked(
    sys: &mut System,
    served: Served,
    tally: Tally,
    buf: &mut [u8],
    out: &[u8],
) -> (Served, Tally) {
    let n = front_of(out, served.end);
    let found = compare(sys, buf, served.input, &out[..n]);
    let behind = Served {
        input: found.input,
        ..served
    };
    (behind, with(tally, found.of_crate, found.same))
}

// Nothing says that the list ends, so it may have as many lines as can be counted. There is no answer once it is
// over.
fn replay(
    sys: &mut System,
    buf: &mut [u8],
    out: &mut [u8],
    input: &mut [f64],
    output: &mut [f64],
    work: &mut [f64],
    table: &mut [f64],
    bytes: &mut [u8],
) -> Tally {
    let mut s = begin();
    let mut tally = none_yet();
    for _ in 0..u64::MAX {
        s = serve(sys, s, buf, out, input, output, work, table, bytes);
        if s.end == 0 {
            break;
        }
        (s, tally) = checked(sys, s, tally, buf, out);
    }
    tally
}

// An answer that is longer than the buffer counts as another one.
fn main(rt: HostRuntime) {
    let mut system = System::new(rt);
    let sys = &mut system;
    let mut buf = io::large_buffer();
    let mut out = io::large_buffer();
    let mut input = [0.0; 131072];
    let mut output = [0.0; 131072];
    let mut work = [0.0; 131072];
    let mut table = [0.0; 262144];
    let mut bytes = [0; 262144];
    let tally = replay(
        sys,
        &mut buf,
        &mut out,
        &mut input,
        &mut output,
        &mut work,
        &mut table,
        &mut bytes,
    );
    print(sys, tally);
}
