// Two test tones at 48,000 frames a second: 440 Hz in the first channel and 1,000 Hz in the second.
#![tactic(auto)]

use options::{say, say_number, say_start};
use samples::least;
use system::{Fd, System};

// The bytes of a frame.
const FRAME: usize = 16;

// The next sample of each tone, and the one before it.
#[derive(Clone, Copy)]
pub struct Tones {
    low: f64,
    low_before: f64,
    high: f64,
    high_before: f64,
}

fn first_tones() -> Tones {
    Tones {
        low: 0.028782013479783642,
        low_before: 0.0,
        high: 0.03263154805501289,
        high_before: 0.0,
    }
}

// Twice the cosine of the tone's angle a frame.
fn next_tones(t: Tones) -> Tones {
    Tones {
        low: samples::tone_next(1.9966836332280566, t.low, t.low_before),
        low_before: t.low,
        high: samples::tone_next(1.9828897227476208, t.high, t.high_before),
        high_before: t.high,
    }
}

// So many frames as bytes.
fn put_tones(bytes: &mut [u8], n: usize, first: Tones) -> Tones {
    let mut t = first;
    for frame in bytes.chunks_exact_mut(FRAME).take(n) {
        samples::put_sample(frame, 0, t.low_before);
        samples::put_sample(frame, 8, t.high_before);
        t = next_tones(t);
    }
    t
}

// Writes the tones in pieces of up to 512 frames; whether all were written.
fn all_written(sys: &mut System, frames: u64, fd: Fd) -> bool {
    let mut bytes = [0u8; 8192];
    let mut tones = first_tones();
    let mut left = frames;
    while left > 0 {
        let n = least(bytes.len() / FRAME, left as usize);
        tones = put_tones(&mut bytes, n, tones);
        if !sys.write_all(fd, &bytes[..FRAME * n]) {
            return false;
        }
        left -= n as u64;
    }
    true
}

// Writes the tones, and says how many frames of them there are; whether all went well.
pub fn write_tones(sys: &mut System, frames: u64, fd: Fd) -> bool {
    let good = all_written(sys, frames, fd) & is_closed(sys, fd);
    tell_written(sys, frames, good);
    good
}

// What was written last may be lost only when the file is closed.
fn is_closed(sys: &mut System, fd: Fd) -> bool {
    !fd.is_file() || sys.close(fd).is_ok()
}

fn tell_written(sys: &mut System, frames: u64, good: bool) {
    if !good {
        sys.fail(b"resample: writing the tones");
    }
    say_start(sys);
    if !good {
        say(sys, b"not all of ");
    }
    say_number(sys, frames);
    say(sys, b" frames of two channels written\n");
}
