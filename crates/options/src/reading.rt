// What stands behind a name, read into the options.
use crate::choices::{blend_of, degree_of, side_of, window_of};
use crate::complaints::{Bad, BadWord, Complaint, complain, complain_of};
use crate::names::Name;
use crate::options::{Change, Options, Place, Rates, Sinc, Target};
use system::System;

// What the word says; where it says none, that is told.
fn or_bad<T: Copy>(
    sys: &mut System,
    found: Option<T>,
    name: Name,
    what: BadWord,
    word: &[u8],
) -> Result<T, Bad> {
    match found {
        Some(value) => Ok(value),
        None => Err(complain_of(sys, Some(name), what, word)),
    }
}

fn number(sys: &mut System, name: Name, word: &[u8]) -> Result<f64, Bad> {
    or_bad(sys, decimals::number_of(word), name, BadWord::Number, word)
}

fn wide_count(sys: &mut System, name: Name, word: &[u8]) -> Result<u64, Bad> {
    or_bad(sys, text::decimal_of(word), name, BadWord::Count, word)
}

pub fn count(sys: &mut System, name: Name, word: &[u8]) -> Result<usize, Bad> {
    Ok(wide_count(sys, name, word)? as usize)
}

fn target(word: &[u8], place: Place) -> Target {
    match word {
        b"-" => Target::Standard,
        _ => Target::File(place),
    }
}

// A file that can be no standard stream.
fn file(sys: &mut System, name: Name, word: &[u8], place: Place) -> Result<Place, Bad> {
    match target(word, place) {
        Target::File(file) => Ok(file),
        Target::Standard => Err(complain_of(sys, Some(name), BadWord::File, word)),
    }
}

// A name with a file's name behind it.
fn read_file(
    sys: &mut System,
    o: &mut Options,
    name: Name,
    word: &[u8],
    place: Place,
) -> Result<(), Bad> {
    match name {
        Name::Input => o.input = Some(target(word, place)),
        Name::Output => o.output = Some(target(word, place)),
        Name::Log => o.log = Some(target(word, place)),
        Name::Plan => o.plan = Some(file(sys, name, word, place)?),
        Name::Table => o.table = Some(file(sys, name, word, place)?),
        Name::Passlog => o.passlog = Some(file(sys, name, word, place)?),
        _ => o.status = Some(file(sys, name, word, place)?),
    }
    Ok(())
}

// A name with one word behind it, which begins at the place.
pub fn read_value(
    sys: &mut System,
    o: &mut Options,
    name: Name,
    word: &[u8],
    place: Place,
) -> Result<(), Bad> {
    match name {
        Name::Ratio => o.ratio = Some(number(sys, name, word)?),
        Name::M => o.m = Some(number(sys, name, word)?),
        Name::Cutoff => o.cutoff = Some(number(sys, name, word)?),
        Name::Chunk => o.chunk = Some(count(sys, name, word)?),
        Name::Channels => o.channels = Some(count(sys, name, word)?),
        Name::Mask => o.mask = Some(wide_count(sys, name, word)?),
        Name::Tones => o.tones = Some(wide_count(sys, name, word)?),
        Name::Degree => {
            o.degree = Some(or_bad(sys, degree_of(word), name, BadWord::Degree, word)?);
        }
        Name::Fixed => o.fixed = Some(or_bad(sys, side_of(word), name, BadWord::Side, word)?),
        Name::Window => {
            o.window = Some(or_bad(sys, window_of(word), name, BadWord::Window, word)?);
        }
        _ => read_file(sys, o, name, word, place)?,
    }
    Ok(())
}

// `--rates IN OUT`.
pub fn read_rates(
    sys: &mut System,
    o: &mut Options,
    input: &[u8],
    output: &[u8],
) -> Result<(), Bad> {
    let Some(ratio) = decimals::quotient_of(output, input) else {
        return Err(complain(sys, Some(Name::Rates), Complaint::Rates));
    };
    o.rates = Some(Rates {
        ratio,
        input: text::decimal_of(input),
    });
    Ok(())
}

// `--at B R` and `--ramp B R`: one change more, if there is room for it.
pub fn read_change(
    sys: &mut System,
    o: &mut Options,
    name: Name,
    first: &[u8],
    second: &[u8],
) -> Result<(), Bad> {
    let change = Change {
        block: wide_count(sys, name, first)?,
        ratio: number(sys, name, second)?,
        ramp: name == Name::Ramp,
    };
    if !o.add(change) {
        return Err(complain(sys, Some(name), Complaint::TooManyChanges));
    }
    Ok(())
}

// FACTOR and BLEND of `--sinc`, whose points have been read.
pub fn read_sinc(
    sys: &mut System,
    o: &mut Options,
    points: usize,
    factor: &[u8],
    blend: &[u8],
) -> Result<(), Bad> {
    let name = Name::Sinc;
    o.sinc = Some(Sinc {
        points,
        factor: count(sys, name, factor)?,
        blend: or_bad(sys, blend_of(blend), name, BadWord::Blend, blend)?,
    });
    Ok(())
}
