// Areas as words: the samples' bit patterns run together, or `-` for no sample.
ghost use Rattle.std.specs.Prelude.{◌≡◌, length};
ghost use Rattle.text.specs.Areas.{area_next, area_kept, area_step, area_after, area_done};

use crate::bits::of_bits;
use crate::words::{Run, hex_step, no_digits};

// What a word has come to as an area: nothing yet, a lone `-`, so many samples and the digits of the
// next, or that it is none or too long.
#[derive(Clone, Copy)]
pub enum Area {
    Start,
    Dash,
    Samples(usize, Option<Run>),
    Bad,
}

// After a digit of the sample at the place k: sixteen digits are the sample.
fn next(area: &mut [f64], k: usize, run: Option<Run>) -> Area
    ensures state { result ≡ area_next (length area.old) k run }
    ensures stored { area.new ≡ area_kept area.old k run }
{
    let Some(digits) = run else {
        return Area::Bad;
    };
    if digits.count != 16 {
        return Area::Samples(k, run);
    }
    if k >= area.len() {
        return Area::Bad;
    }
    area[k] = of_bits(digits.number);
    Area::Samples(k + 1, no_digits())
}

// One byte more. A sample that is whole is stored.
pub fn area_step(area: &mut [f64], read: Area, byte: u8) -> Area
    ensures state { result ≡ area_step (length area.old) read byte }
    ensures stored { area.new ≡ area_after area.old read byte }
{
    match read {
        Area::Start => {
            if byte == 45 {
                Area::Dash
            } else {
                next(area, 0, hex_step(no_digits(), byte))
            }
        }
        Area::Dash => Area::Bad,
        Area::Samples(k, run) => next(area, k, hex_step(run, byte)),
        Area::Bad => Area::Bad,
    }
}

// The word has ended: the number of its samples.
pub fn area_done(read: Area) -> Option<u64>
    ensures { result ≡ area_done read }
{
    match read {
        Area::Dash => Some(0),
        Area::Samples(k, run) => (run?.count == 0).then_some(k as u64),
        Area::Start | Area::Bad => None,
    }
}
