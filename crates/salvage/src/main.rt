// Copies the good records of a pass log that may be damaged, and lists what is kept and what is skipped
// (`--help`).
#![tactic(auto)]

mod files;
mod listing;
mod run;
mod words;

use system::System;
use words::Words;

fn help(sys: &mut System) -> bool {
    sys.write_all(
        system::OUTPUT,
        b"salvage: the good records of a damaged pass log.

  salvage FILE --out FILE

Copies each record of a pass log whose mark, kind, length and sum agree, to the
bit, and passes over what stands between them. The log may be of any length.
Standard output gets the listing and nothing else, a line for each stretch of
the log: where it starts, counted from 0, and how many bytes it has.

  skipped 0 3
  kept 3 9

A stretch that is skipped goes up to the next record or the end and has one
line; each record that is kept has its own. A record is written before it is
listed. What was kept and skipped in all is told on standard error, and each
second how far it is.

The log is looked at from left to right: from the end of the last record that
was kept, and one byte on where none stands. What looks like a record is taken
for one, so bytes that happen to can hide a good record that begins inside them:
of d7 1a 01 05 00 in front of the record d7 1a 02 02 00 fb 00 ff 00 the first
twelve bytes are kept, and the last two are skipped.

  FILE            the log; - for standard input
  --out FILE      where the records go; what the file held is replaced
  --status FILE   the exit status goes there, as a digit and a line feed
  --help, -h      this text

No file is written before the log is open, and none that is the log, standard
output or the --status file. Where the log cannot be read to its end, what was
read of it is taken for the whole, and that is told. Of a disk with blocks that
cannot be read, make a copy first with a tool that passes over such blocks, and
salvage the copy.
./hazivotra salvage exits with 0 where the log was read to its end and all was
written, also where stretches were skipped; 1 where a file failed; and 2 where a
word was bad or missing.
",
    )
}

// What the words ask for, and the status that comes of it.
fn status_of(sys: &mut System, w: Words) -> u64 {
    let common = w.common;
    if !common.good {
        return 2;
    }
    if common.help {
        return if help(sys) { 0 } else { 1 };
    }
    match files::open_files(sys, w) {
        Some(f) if run::salvage(sys, f) => 0,
        _ => 1,
    }
}

// Each program has such a main: one for all would take three closures, and be no shorter.
fn main(rt: HostRuntime) {
    let mut system = System::new(rt);
    let sys = &mut system;
    let w = words::read_words(sys);
    let status = status_of(sys, w);
    files::write_status(sys, w, status);
}
