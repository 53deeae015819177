// Standard input, byte by byte, through a buffer that the caller lends; and its words.
use crate::bytes::{Bytes, begin_bytes, bytes_step};
use crate::names::Name;
use system::System;
use text::{Area, Run};

// The bytes of the buffer from `at` to `end` are still to be read; `open` says that there may be more
// behind them. `byte` was read last, and is 10 at the end of the input.
#[derive(Clone, Copy)]
pub struct Input {
    pub at: usize,
    pub end: usize,
    pub open: bool,
    pub byte: u8,
}

// What a word has come to, as each thing that a word can be, and the input behind it. An area that has
// filled the `first` samples that it is lent goes on in others, and `area` is what has come there.
#[derive(Clone, Copy)]
pub struct Word {
    pub input: Input,
    pub name: Name,
    pub whole: Option<Run>,
    pub bits: Option<Run>,
    pub area: Area,
    pub first: usize,
    pub bytes: Bytes,
}

pub fn start() -> Input {
    Input {
        at: 0,
        end: 0,
        open: true,
        byte: 10,
    }
}

// Sees to it that there is a byte to look at, unless the input is over.
fn filled(sys: &mut System, buf: &mut [u8], input: Input) -> Input {
    if input.at < input.end {
        return input;
    }
    if !input.open {
        return input;
    }
    let n = system::brought(sys.read(system::INPUT, buf));
    Input {
        at: 0,
        end: n,
        open: n > 0,
        byte: input.byte,
    }
}

// One byte further.
fn passed(buf: &[u8], input: Input) -> Input {
    let at = input.at;
    let mut next = input;
    next.byte = 10;
    if at < input.end {
        if at < buf.len() {
            next.at = at + 1;
            next.byte = buf[at];
        }
    }
    next
}

// Reads a byte.
pub fn read_byte(sys: &mut System, buf: &mut [u8], input: Input) -> Input {
    let here = filled(sys, buf, input);
    passed(buf, here)
}

// A space, a colon or the end of the line, which is a newline or the end of the input, stands behind a word.
fn ends_word(byte: u8) -> bool {
    (byte == 32) | (byte == 58) | (byte == 10)
}

// Before the first byte of a word. As bytes it is bad from the start where none are wanted, so that it
// leaves those of a word before it.
pub fn no_word(input: Input, wanted: bool, before: usize) -> Word {
    let none = text::no_digits();
    let bytes = begin_bytes(wanted, before);
    Word {
        input,
        name: Name::empty(),
        whole: none,
        bits: none,
        area: Area::Start,
        first: 0,
        bytes,
    }
}

// One byte more of an area: its samples go to the first that are lent, and once these are full to the next.
fn area_step(area: &mut [f64], next: &mut [f64], first: usize, read: Area, byte: u8) -> Area {
    if first > 0 {
        return text::area_step(next, read, byte);
    }
    text::area_step(area, read, byte)
}

// Whether an area has all the samples that are lent.
fn is_full(area: &[f64], read: Area) -> bool {
    match read {
        Area::Samples(k, Some(run)) => (run.count == 0) & (k >= area.len()),
        _ => false,
    }
}

// How many samples are full, 0 where some are still to come.
fn first_after(area: &[f64], first: usize, read: Area) -> usize {
    if first > 0 {
        return first;
    }
    if is_full(area, read) { area.len() } else { 0 }
}

// What has come to the samples that are being filled: none where these are new.
fn area_after(read: Area, begins: bool) -> Area {
    if begins {
        return Area::Samples(0, text::no_digits());
    }
    read
}

// One byte more of a word, the last that was read.
fn word_step(area: &mut [f64], next: &mut [f64], bytes: &mut [u8], word: Word) -> Word {
    let byte = word.input.byte;
    let read = area_step(area, next, word.first, word.area, byte);
    let first = first_after(area, word.first, read);
    Word {
        input: word.input,
        name: word.name.with(byte),
        whole: text::decimal_step(word.whole, byte),
        bits: text::hex_step(word.bits, byte),
        area: area_after(read, first > word.first),
        first,
        bytes: bytes_step(bytes, word.bytes, byte),
    }
}

// Reads a word to its end. Nothing says that it ends, so it may have as many bytes as can be counted.
pub fn read_word(
    sys: &mut System,
    buf: &mut [u8],
    area: &mut [f64],
    next: &mut [f64],
    bytes: &mut [u8],
    begun: Word,
) -> Word {
    let mut word = begun;
    for _ in 0..u64::MAX {
        word.input = read_byte(sys, buf, word.input);
        if ends_word(word.input.byte) {
            return word;
        }
        word = word_step(area, next, bytes, word);
    }
    word
}
