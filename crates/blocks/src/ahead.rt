// Frames of a file, read with one frame ahead: before a block is used its caller knows whether the input is
// over behind it. The functions that have a `requires` only this crate calls.
ghost use Rattle.std.specs.Prelude.{true, false, ◌&&◌, not, ◌≡◌, ◌+◌, ◌*◌, ◌/◌, ◌%◌, ◌<◌, ◌≤◌, ltb, leb, length};
ghost use Rattle.samples.specs.Counts.{taken};
ghost use Rattle.blocks.specs.Blocks.{riff_mark, held_to, left_in, fits, goes_on, NextRead, FramesRead, Unread};

use crate::reading::{Piece, read_area, read_pieces};
use samples::takes;
use system::{Fd, System};

// Whole frames that were read; whether a further one stands in `held`; whether no whole frame is behind the
// last one; the bytes of a broken frame at the end; whether the input starts as a WAV file does; whether a
// read failed, or there was no place to read to.
#[derive(Clone, Copy)]
pub struct Reading {
    pub frames: usize,
    pub held: bool,
    pub ended: bool,
    pub left: usize,
    pub riff: bool,
    pub failed: bool,
}

// Nothing was read: a frame that was held still is.
fn unread(held: bool, failed: bool) -> Reading
    ensures { (result.frames ≡ 0) × (result.held ≡ held) × (result.ended ≡ not held) × (result.left ≡ 0) × (result.failed ≡ failed) }
{
    Reading {
        frames: 0,
        held,
        ended: !held,
        left: 0,
        riff: false,
        failed,
    }
}

// The bytes behind the last whole frame.
fn left_in(p: Piece, channels: usize) -> usize
    requires { (0 < channels) × (channels ≤ 16) × (p.rest < 8) }
    ensures { (result ≡ left_in channels p.samples p.rest) × (result ≤ 128) }
{
    8 * (p.samples % channels) + p.rest
}

// `RIFF`, `RIFX` or `RF64` at the front.
fn is_riff(bytes: &[u8]) -> bool
    requires { 4 ≤ length bytes.now }
    ensures { result ≡ riff_mark bytes.now }
{
    let b = bytes[1];
    let c = bytes[2];
    let d = bytes[3];
    let wave = (b == 73) & (c == 70) & ((d == 70) | (d == 88));
    let large = (b == 70) & (c == 54) & (d == 52);
    (bytes[0] == 82) & (wave | large)
}

// The first frame of the input into `held`.
pub fn read_first(sys: &mut System, fd: Fd, held: &mut [f64], channels: usize) -> Reading
    ensures next_read { taken channels 1 (length held.old) ≡ true → NextRead channels held.old held.new result.held result.ended result.left }
    ensures held_unchanged { taken channels 1 (length held.old) ≡ false → (held.new ≡ held.old) × (result.held ≡ false) × (result.failed ≡ true) }
{
    if !takes(channels, 1, held.len()) {
        return unread(false, true);
    }
    let mut bytes = [0u8; 8192];
    let p = read_pieces(sys, fd, &mut bytes, held, channels, 1, channels, 0, false);
    Reading {
        frames: 0,
        held: !p.ended,
        ended: p.ended,
        left: left_in(p, channels),
        riff: is_riff(&bytes),
        failed: p.failed,
    }
}

// The held frame becomes the area's first one.
fn put_held(held: &[f64], area: &mut [f64], channels: usize, share: usize)
    requires { (0 < share) × (channels * share ≤ 1048576) × (channels * share ≤ length area.old) × (channels ≤ length held.now) }
    ensures { area.new ≡ held_to share held.now area.old channels }
{
    for c in 0..channels {
        area[c * share] = held[c];
    }
}

// The frames of an area, and the next one that was read behind them.
fn reading_of(p: Piece, next: Piece, channels: usize) -> Reading
    requires { (0 < channels) × (channels ≤ 16) × (p.rest < 8) × (next.rest < 8) }
    ensures { (result.frames ≡ p.samples / channels) × (result.held ≡ not next.ended) × (result.ended ≡ next.ended) × (result.left ≡ left_in channels p.samples p.rest + left_in channels next.samples next.rest) }
{
    Reading {
        frames: p.samples / channels,
        held: !next.ended,
        ended: next.ended,
        left: left_in(p, channels) + left_in(next, channels),
        riff: false,
        failed: p.failed | next.failed,
    }
}

// The held frame, those behind it, and the next one to hold.
fn read_behind(
    sys: &mut System,
    fd: Fd,
    input: &mut [f64],
    held: &mut [f64],
    channels: usize,
    share: usize,
) -> Reading
    requires { (0 < channels) × (channels ≤ 16) × (0 < share) × (share ≤ 65536) × (channels * share ≤ 1048576) × (channels * share ≤ length input.old) × (channels ≤ length held.old) }
    ensures { FramesRead channels share input.old input.new held.old held.new result.frames result.held result.ended result.left }
{
    put_held(held, input, channels, share);
    let p = read_area(sys, fd, input, channels, share, channels, false);
    let next = read_area(sys, fd, held, channels, 1, 0, p.ended);
    reading_of(p, next, channels)
}

// Up to `share` frames into the area, channel after channel: the held one first, then the file's. Then the next
// one is read into `held`. Where none is held, none is asked for or there is no place nothing is read: a held
// frame stays held, and `ended` says that there is none.
pub fn read_frames(
    sys: &mut System,
    fd: Fd,
    input: &mut [f64],
    held: &mut [f64],
    has_held: bool,
    channels: usize,
    share: usize,
) -> Reading
    ensures frames_read { goes_on channels share (length input.old) (length held.old) has_held ≡ true → FramesRead channels share input.old input.new held.old held.new result.frames result.held result.ended result.left }
    ensures unread { goes_on channels share (length input.old) (length held.old) has_held ≡ false → Unread (fits channels share (length input.old) (length held.old)) has_held input.old input.new held.old held.new result.frames result.held result.ended result.failed }
{
    let fit = takes(channels, share, input.len()) & (channels <= held.len());
    if !(fit & has_held & (share > 0)) {
        return unread(has_held, !fit);
    }
    read_behind(sys, fd, input, held, channels, share)
}
