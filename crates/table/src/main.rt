// Builds the table of windowed sincs that the words ask for, writes it to a file, and says on one line what
// it is (`--help`).
#![tactic(auto)]

mod build;
mod keep;
mod named;
mod words;

use system::System;
use words::Words;

fn help(sys: &mut System) -> bool {
    sys.write_all(
        system::OUTPUT,
        b"table: a table of windowed sincs, built and common.

  table POINTS FACTOR CUTOFF WINDOW --out FILE

The table has FACTOR rows of POINTS entries. It goes to FILE, row 0 first, as
64-bit floats, lowest byte first, and standard output gets one line that says
what the table is, for the log of the pass that uses it:

  points 64 factor 16 cutoff 0.9 x3feccccccccccccd window hann entries 1024 sum S

S has 32 hex digits: the sum of all entries' bits, and the sum of that running
sum after each entry, both modulo 2^64.

  POINTS, FACTOR  whole numbers; POINTS times FACTOR is 2 to 65536
  CUTOFF          above 0 and at most 1: a decimal of up to 19 digits (0.9), a
                  quotient of two whole numbers of up to 19 digits (9/10), or
                  the 16 hex digits of its bits (x3feccccccccccccd)
  WINDOW          hann, hann2, blackman, blackman2, blackman-harris or
                  blackman-harris2; or h, h2, b, b2, bh, bh2. A 2 is the square
  --out FILE      where the table goes; what the file held is replaced
  --status FILE   the exit status goes there, as a digit and a line feed
  --help, -h      this text

Nothing is written, and no file is opened, unless the table is built.
./hazivotra table exits with 0 where all went well, 1 where not (a refusal, a
file), and 2 where a word was bad or missing.
",
    )
}

// What the words ask for, and the status that comes of it.
fn status_of(sys: &mut System, w: Words) -> u64 {
    let common = w.common;
    if !common.good {
        return 2;
    }
    if common.help {
        return if help(sys) { 0 } else { 1 };
    }
    if build::make(sys, w) { 0 } else { 1 }
}

// Each program has such a main: one for all would take three closures, and be no shorter.
fn main(rt: HostRuntime) {
    let mut system = System::new(rt);
    let sys = &mut system;
    let w = words::read_words(sys);
    let status = status_of(sys, w);
    keep::write_status(sys, w, status);
}
