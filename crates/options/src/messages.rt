// Messages on standard error.
use error::Refusal;
use printer::front_of;
use system::System;

pub fn say(sys: &mut System, text: &[u8]) {
    sys.write_all(system::ERROR, text);
}

pub fn say_number(sys: &mut System, n: u64) {
    sys.print_decimal(system::ERROR, n);
}

// A float as a decimal and by its bits.
pub fn say_value(sys: &mut System, x: f64) {
    let mut line = [0u8; 128];
    let n = values::put_value(&mut line, 0, x);
    let k = front_of(&line, n);
    say(sys, &line[..k]);
}

// What stands before every message.
pub fn say_start(sys: &mut System) {
    say(sys, b"resample: ");
}

fn name_of(r: Refusal) -> &'static str {
    match r {
        Refusal::InvalidRatio(_) => "InvalidRatio",
        Refusal::InvalidRelativeRatio(_) => "InvalidRelativeRatio",
        Refusal::InvalidChunkSize => "InvalidChunkSize",
        Refusal::RatioOutOfBounds(_, _, _) => "RatioOutOfBounds",
        Refusal::RatioBeyondPort(_) => "RatioBeyondPort",
        Refusal::SizeTooLarge => "SizeTooLarge",
        Refusal::Channels => "Channels",
        Refusal::BufferShape => "BufferShape",
        Refusal::Reach => "Reach",
        Refusal::StateRecord => "StateRecord",
        Refusal::Argument => "Argument",
    }
}

// What to do about it.
fn hint_of(r: Refusal) -> &'static str {
    match r {
        Refusal::InvalidRatio(_) => ": the ratio must be finite and above 0",
        Refusal::InvalidRelativeRatio(_) => ": --m must be finite and 1 or more",
        Refusal::InvalidChunkSize => ": --chunk must be 1 or more",
        Refusal::RatioOutOfBounds(_, _, _) => {
            ": a new ratio must lie between R/m and R*m: a larger --m allows more"
        }
        Refusal::RatioBeyondPort(_) => ": a ratio must lie between 1/256 and 256",
        Refusal::SizeTooLarge => ": a size passes 65536 frames: lower --chunk or --m",
        Refusal::Channels => ": --channels must be 1 to 16",
        Refusal::BufferShape => ": --mask has a bit for a channel that is not there",
        Refusal::Reach => {
            ": the ratio rose too fast: raise it in smaller steps, or use --fixed out"
        }
        Refusal::StateRecord => ": the record is none that a call leaves",
        Refusal::Argument => {
            ": --sinc takes an even number of points, 8 to 256, and a factor of 3 to 1024; --cutoff takes more than 0 and at most 1"
        }
    }
}

// A refusal with its number, its name, the floats that it carries and what to do.
pub fn say_refused(sys: &mut System, r: Refusal) {
    let carried = error::values(r);
    say(sys, b"refused ");
    say_number(sys, error::number(r));
    say(sys, b" ");
    say(sys, name_of(r).as_bytes());
    for x in carried.values.iter().take(carried.count) {
        say(sys, b" ");
        say_value(sys, *x);
    }
    say(sys, hint_of(r).as_bytes());
    say(sys, b"\n");
}
