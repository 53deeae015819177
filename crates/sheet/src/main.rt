// Adds up the positions that pass logs tell, line by line, and prints them with their distance and its bound
// (`--help`).
#![tactic(auto)]

mod book;
mod files;
mod logs;
mod page;
mod picture;
mod rows;
mod run;
mod told;
mod words;

use drift_picture::Chart;
use system::System;
use words::Words;

fn help(sys: &mut System) -> bool {
    sys.write_all(
        system::OUTPUT,
        b"sheet: exact positions over pass logs.

  sheet LOG .. [--picture FILE.svg]

A log is the calls of one stream: a construction or a reset starts a line of the
sheet and closes the one before it, each block is added to the line. Standard
output gets a line of text for each line that ends, and one for the total:

  LOG line 1: N 5 B 2 exact D xP stored D xP distance D xP bound D xP inside, open
  total: N 5 B 2 exact D xP stored D xP whole

  N, B       output frames and blocks of the line
  exact      where the line stands by its blocks: the start index, and for a
             block of n frames n*t + d*n*(n+1)/2, nothing rounded
  stored     where the program stood: the input frames of the blocks, and the
             index that the last call left
  distance   how far these two are apart
  bound      (N+B)/2^37, and n*(n+1)/2^46 for each block of n frames whose d is
             not zero
  inside     the distance is at most the bound; else OUTSIDE

All are in samples of the input. D is rounded to 15 decimals (~0 is a little more
than 0); P is exact, a whole number in decimal and 48 hex digits behind the point.
The exact and the stored position are those of the drift theorem. For a log that
resample wrote, whole, the distance is proved to be inside; for any other log it
is computed, and the line says what it is.

A line ends with one of these words:

  open       the log ends
  closed     a construction or a reset starts the next line
  early      a block before any construction or reset
  payload    a payload of another length than the record's kind has
  float      a step, increment or index that is not finite, or no multiple of
             2^-192
  range      a position's whole part would leave a signed 64-bit number, or a
             count a 64-bit one

The last four name the byte of the log at which the record stands. That record
does nothing, and no more of its log is read; the next log is. Where no line is
open such a word stands alone: LOG: early at byte 0: ..

The total is over all lines, whatever they ended with. It is whole where every
log was read to its end, nothing was skipped and no record was bad; else it says
NOT WHOLE, and the lines above and standard error say why.

A log is read as salvage keeps its records: what stands between them is skipped,
told, and no call. Two logs of one stream are two streams to the sheet: the
second begins in the middle (early), or with a reset.

  LOG             a log; - for standard input. A log of any length will do
  --picture FILE  distance and bound over the output frames, as an SVG; what the
                  file held is replaced. The lines stand side by side, a thin
                  rule where each begins. There are at most 1024 points: of more
                  blocks, those with the largest distance
  --status FILE   the exit status goes there, as a digit and a line feed
  --help, -h      this text

Each second it is told on standard error how far a log is read.
./hazivotra sheet exits with 0 where every log was read whole, nothing was
skipped, no record was bad and every line is inside; 1 where that is not so, or a
file could not be read or written; and 2 where a word was bad or missing, or the
picture is a log, standard output or the --status file: then no file is written.
",
    )
}

// Reads the logs and draws the picture, where one is asked for; whether all is well.
fn is_well(sys: &mut System, w: Words) -> bool {
    let mut chart = if w.picture.is_some() {
        Some(Chart::new())
    } else {
        None
    };
    let b = logs::read_logs(sys, w, &mut chart);
    let page = b.page;
    let sheet = page.sheet;
    let total = sheet.total;
    let well = page.good & page.whole & page.inside;
    match (w.picture, &mut chart) {
        (Some(word), Some(c)) => {
            let drawn = picture::draw(sys, word, w.logs, total, c);
            well & drawn
        }
        _ => well,
    }
}

// What the words ask for, and the status that comes of it.
fn status_of(sys: &mut System, w: Words) -> u64 {
    let common = w.common;
    if !common.good {
        return 2;
    }
    if common.help {
        return if help(sys) { 0 } else { 1 };
    }
    if files::has_clash(sys, w) {
        return 2;
    }
    if is_well(sys, w) { 0 } else { 1 }
}

// Each program has such a main: one for all would take three closures, and be no shorter.
fn main(rt: HostRuntime) {
    let mut system = System::new(rt);
    let sys = &mut system;
    let w = words::read_words(sys);
    let status = status_of(sys, w);
    files::write_status(sys, w, status);
}
