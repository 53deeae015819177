// Reads the words of the command line one after the other.
use crate::complaints::{Bad, BadWord, Complaint, complain, complain_of};
use crate::names::{Behind, Name};
use crate::options::{Options, Place};
use crate::reading::{count, read_change, read_rates, read_sinc, read_value};
use crate::tasks::{Task, task_of};
use system::System;

// The complaint where a word behind the name is missing.
fn lacking(name: Name) -> Complaint {
    match name.behind() {
        Behind::Sinc => Complaint::LacksThree,
        Behind::Rates | Behind::Change => Complaint::LacksTwo,
        Behind::Value | Behind::Nothing => Complaint::LacksOne,
    }
}

// The word at the place, as a value of the name. One that is missing or too long, or that begins with `--`, is
// none.
fn value_at<'a>(
    sys: &mut System,
    name: Name,
    at: usize,
    buffer: &'a mut [u8],
) -> Result<&'a [u8], Bad> {
    let Ok(n) = sys.arg(at, buffer) else {
        return Err(complain(sys, Some(name), lacking(name)));
    };
    let word = &buffer[..n];
    if word.starts_with(b"--") {
        return Err(complain(sys, Some(name), lacking(name)));
    }
    Ok(word)
}

// The two words behind the place `at`, which belong to the name; `--sinc` has its points before them.
fn read_two(
    sys: &mut System,
    o: &mut Options,
    name: Name,
    points: usize,
    at: usize,
) -> Result<(), Bad> {
    let mut first_buffer = io::buffer();
    let mut second_buffer = io::buffer();
    let first = value_at(sys, name, at.saturating_add(1), &mut first_buffer)?;
    let second = value_at(sys, name, at.saturating_add(2), &mut second_buffer)?;
    match name {
        Name::Rates => read_rates(sys, o, first, second),
        Name::Sinc => read_sinc(sys, o, points, first, second),
        _ => read_change(sys, o, name, first, second),
    }
}

// The first word behind the place `at`: the points of `--sinc`.
fn read_points(sys: &mut System, at: usize) -> Result<usize, Bad> {
    let mut buffer = io::buffer();
    let word = value_at(sys, Name::Sinc, at.saturating_add(1), &mut buffer)?;
    count(sys, Name::Sinc, word)
}

fn read_one(sys: &mut System, o: &mut Options, name: Name, at: usize) -> Result<(), Bad> {
    let mut buffer = io::buffer();
    let behind = at.saturating_add(1);
    let word = value_at(sys, name, behind, &mut buffer)?;
    read_value(
        sys,
        o,
        name,
        word,
        Place {
            at: behind,
            from: 0,
        },
    )
}

// A name that nothing stands behind.
fn mark(o: &mut Options, name: Name) {
    match name {
        Name::Raw => o.raw = true,
        Name::Force => o.force = true,
        Name::Help => o.help = true,
        Name::ShortHelp => o.short_help = true,
        _ => o.version = true,
    }
}

// A name that stands by itself, and the words that it takes; how many words that is.
fn read_values(sys: &mut System, o: &mut Options, name: Name, at: usize) -> Result<usize, Bad> {
    match name.behind() {
        Behind::Nothing => {
            mark(o, name);
            Ok(1)
        }
        Behind::Value => {
            read_one(sys, o, name, at)?;
            Ok(2)
        }
        Behind::Rates | Behind::Change => {
            read_two(sys, o, name, 0, at)?;
            Ok(3)
        }
        Behind::Sinc => {
            let points = read_points(sys, at)?;
            read_two(sys, o, name, points, at.saturating_add(1))?;
            Ok(4)
        }
    }
}

// The name of a word, if it may be given here; `joined` where a value stands behind a `=` in the same word.
fn name_in(
    sys: &mut System,
    o: &Options,
    text: &[u8],
    joined: bool,
    word: &[u8],
) -> Result<Name, Bad> {
    let Some(name) = Name::of(text) else {
        return Err(complain_of(sys, None, BadWord::Unknown, word));
    };
    let behind = name.behind();
    if joined && !matches!(behind, Behind::Value) {
        return Err(complain_of(sys, Some(name), BadWord::NoValue, word));
    }
    if o.has(name) && !matches!(behind, Behind::Change) {
        return Err(complain(sys, Some(name), Complaint::Twice));
    }
    Ok(name)
}

fn read_word(sys: &mut System, o: &mut Options, at: usize, word: &[u8]) -> Result<usize, Bad> {
    match scan::find(word, b'=') {
        Some(end) => {
            let name = name_in(sys, o, &word[..end], true, word)?;
            let from = end + 1;
            read_value(sys, o, name, &word[from..], Place { at, from })?;
            Ok(1)
        }
        None => {
            let name = name_in(sys, o, word, false, word)?;
            read_values(sys, o, name, at)
        }
    }
}

// The word at the place and those behind it that belong to it; how many they are.
fn read_next(sys: &mut System, o: &mut Options, at: usize) -> Result<usize, Bad> {
    let mut buffer = io::buffer();
    let Ok(n) = sys.arg(at, &mut buffer) else {
        return Err(complain(sys, None, Complaint::TooLong));
    };
    read_word(sys, o, at, &buffer[..n])
}

// All the words, the first of which is the program's name.
fn read_all(sys: &mut System, o: &mut Options) -> Result<(), Bad> {
    let count = sys.arg_count();
    let mut next = 1;
    for at in 1..count {
        if at == next {
            next = at.saturating_add(read_next(sys, o, at)?);
        }
    }
    Ok(())
}

// What the words ask for, and what they say of it, as far as they were read. What is wrong with them is told.
pub fn read_words(sys: &mut System, o: &mut Options) -> Result<Task, Bad> {
    read_all(sys, o)?;
    task_of(sys, o)
}
