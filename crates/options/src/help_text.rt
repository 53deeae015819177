// What `--help` and `--version` print: one text each.
// Whether each was written is the answer.
use system::{Fd, System};

pub fn write_version(sys: &mut System, fd: Fd) -> bool {
    sys.write_all(
        fd,
        b"resample 1.1, the asynchronous resampler of rubato 5.0.1\n",
    )
}

pub fn help(sys: &mut System) -> bool {
    sys.write_all(
        system::OUTPUT,
        b"resample: samples in, samples out, at another rate.

  resample --ratio R [WORDS]        R is output frames for each input frame
  resample --rates IN OUT [WORDS]   the same with R = OUT/IN
  resample --tones FRAMES           two test tones in two channels

Samples are 64-bit floats, lowest byte first; a frame is a sample of each
channel. A word with one value can be written --name=value too.

  --in FILE      read it, and not standard input (- is standard input)
  --out FILE     write it, and not standard output (- is standard output)
  --channels C   1 to 16; 1 unless given
  --ratio R      a decimal of up to 19 digits (1.25), a quotient of two whole
                 numbers of up to 19 digits (160/147), or the 16 hex digits of
                 its bits (x3ff4000000000000); 1/256 to 256
  --rates IN OUT two whole numbers of up to 19 digits (48000 44100)
  --degree D     nearest, linear, cubic, quintic or septic; septic unless given
  --sinc POINTS FACTOR BLEND
                 a windowed sinc in the place of a polynomial: an even number of
                 POINTS, 8 to 256; FACTOR rows for each input frame, 3 to 1024;
                 BLEND between rows is nearest, linear, quadratic or cubic. A
                 table of up to 65536 entries (POINTS times FACTOR) is built:
  --window W     by hann, hann2, blackman, blackman2, blackman-harris or
                 blackman-harris2 (or h, h2, b, b2, bh, bh2); bh2 unless given
  --cutoff C     up to C, above 0 and at most 1, of half the input's rate, in the
                 forms of R; unless given the C that suits POINTS and W. Where R
                 is below 1, a C that is R times lower keeps aliases out
  --table FILE   or the table is this file, of POINTS times FACTOR samples, row 0
                 first, as ./hazivotra table writes it: the only way to more
                 entries, and in the place of --window and --cutoff
  --fixed S      in or out: which blocks have N frames; out unless given
  --chunk N      frames a block on the fixed side; 1024 unless given
  --mask M       bit c is 1 where channel c is switched on; all on unless given.
                 A channel that is off is silence
  --m M          how far a change may go: R/M to R*M; 1 or more; 2 unless given
  --at B R       the ratio is R from block B on; blocks count from 0
  --ramp B R     the same, and block B goes to it step by step
                 (up to 16 --at and --ramp in all)
  --plan FILE    any number of changes, a line each, their blocks in rising
                 order: at B R, ramp B R or mask B M
  --log FILE     the log goes there, and not to standard error; - is standard
                 output, with --out
  --passlog FILE a record of each accepted call goes there, written before the
                 next call: the start index, each ratio that was set, and of a
                 block its sizes, step, increment and the index it leaves. They
                 are bytes, and each has a sum: ./hazivotra salvage checks such
                 a log, and rescues the records that a bad disk left whole
  --raw          the blocks as they come, whole, with delay and padding
  --force        take an input that begins as a WAV file does (RIFF) as samples
  --status FILE  the exit status goes there, as a digit and a line feed
  --help, -h     this text
  --version      the version

The output is cut to the input: after the last input frame zeros are fed, and
the frames are written whose position lies from 0 up to the input's end (with a
margin of 2^-20 at both). The log and the last message say how many were cut at
each end and where the first one stands. --raw cuts nothing: the first frames
lie before the input by the delay, and the last block's input is filled up with
zeros. A frame's position is the input frames used before its block plus its
index; a sinc's lies POINTS/2 - 1 frames further (and 1/FACTOR of one, which is
not counted for the cut). A NaN is written as 7ff8000000000000, whatever NaN it was.

The log has the words and settings, then a line a block: the frames in and out,
the step at its start and its increment a frame, the index it leaves, all output
frames N and blocks B so far, then three positions in samples of the input: the
exact one, which is the start index with every step added and nothing rounded,
the stored one, which is the input frames used and the index, and their distance.
An x and 16 hex digits are a float's bits; an x, a whole number, a point and 48
hex digits are a position, exact. A sinc's table has a line, with the sum that
./hazivotra table prints. At the end stand the line of the pass, whether its
distance is inside the proved bound, and beside the two what the rounding of
1/ratio adds (blocks with a ramp pending left out) and what a clock off by one
part in 10^9 would: in samples, and with --rates in seconds and in metres of
light path (299792458 a second).

An output, log or pass log that is another file of the pass is refused before
it is opened. A change that no block reached is told at the end.

  resample --tones 48000 --out tones.f64
  resample --rates 48000 44100 --channels 2 --in tones.f64 --out new.f64
  resample --ratio 1 --m 4 --channels 2 --ramp 10 2 <tones.f64 >new.f64
  resample --ratio 1.28 --channels 2 --sinc 128 256 cubic <tones.f64 >new.f64

A refusal is told with its number and name. 9, Reach, comes after a steep rise
of the ratio with --fixed in: raise it in smaller steps, or use --fixed out.
./hazivotra resample exits with 0 where all went well, 1 where not (a refusal, a
file, an empty input, a change not reached), and 2 where a word was bad.
",
    )
}
