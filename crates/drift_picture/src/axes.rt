// The axes: a rule and a label at powers of ten, and at round numbers of frames.
use crate::pen::{Hundredths, put_label, put_path, put_text};
use crate::view::{View, x_of, y_of};
use std::fmt;

// The powers of ten above 1 that a number of 64 bits can have.
const TENS: usize = 19;

// The most rules of one axis.
const RULES: u64 = 13;

// 10^(n - 58), as 1e-12.
fn put_power<W: fmt::Write>(out: &mut W, n: u64) -> fmt::Result {
    if n < 58 {
        return write!(out, "1e-{}", 58 - n);
    }
    write!(out, "1e{}", n - 58)
}

// The rule of a power of ten across the field, and its label beside it.
fn put_height<W: fmt::Write>(out: &mut W, v: View, n: u64) -> fmt::Result {
    if (n > v.high) | (n > 1000) {
        return Ok(());
    }
    let y = y_of(v, 1000 * n);
    put_path(out, "grid")?;
    write!(out, "M90.00,{}H870.00\"/>\n", Hundredths(y))?;
    put_text(out, 8400, y + 400, "end")?;
    put_power(out, n)?;
    write!(out, "</text>\n")
}

// Every power of ten, or every second, third and so on where they are many.
pub fn put_heights<W: fmt::Write>(out: &mut W, v: View) -> fmt::Result {
    let mut n = v.low;
    let step = height_step(v);
    for _ in 0..RULES {
        put_height(out, v, n)?;
        n = n.wrapping_add(step);
    }
    Ok(())
}

fn height_step(v: View) -> u64 {
    v.high.saturating_sub(v.low) / RULES + 1
}

// The label of a number of frames under the field, and a short rule there.
fn put_frames<W: fmt::Write>(out: &mut W, v: View, n: u64) -> fmt::Result {
    if n > v.frames {
        return Ok(());
    }
    let x = x_of(v, n);
    put_path(out, "axis")?;
    write!(out, "M{},440.00v6\"/>\n", Hundredths(x))?;
    put_text(out, x, 46200, "middle")?;
    write!(out, "{n}</text>\n")
}

// A power of ten of which there are at most nine in n, of at most 10^19.
fn round_step(n: u64) -> u64 {
    let mut step: u64 = 1;
    for _ in 0..TENS {
        step = larger(step, n);
    }
    step
}

// Ten times the step, where there are more than nine in n.
fn larger(step: u64, n: u64) -> u64 {
    if step == 0 {
        return 1;
    }
    if n / step <= 9 {
        return step;
    }
    step.checked_mul(10).unwrap_or(step)
}

// Half or a fifth of the step, where there are few of it in n.
fn finer(step: u64, n: u64) -> u64 {
    if step < 10 {
        return step;
    }
    match n / step {
        0 | 1 => step / 5,
        2 | 3 => step / 2,
        _ => step,
    }
}

pub fn put_counts<W: fmt::Write>(out: &mut W, v: View) -> fmt::Result {
    let step = finer(round_step(v.frames), v.frames);
    let mut n: u64 = 0;
    put_frames(out, v, n)?;
    for _ in 0..RULES {
        n = n.saturating_add(step);
        put_frames(out, v, n)?;
    }
    Ok(())
}

// What the axes count.
pub fn put_names<W: fmt::Write>(out: &mut W) -> fmt::Result {
    put_label(out, 48000, 48600, "middle", "output frames")?;
    write!(
        out,
        "<text transform=\"translate(24,250) rotate(-90)\" text-anchor=\"middle\">distance in samples</text>\n"
    )
}
