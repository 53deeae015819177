// One line of the call script: its command, and the numbers of its other words.
use crate::reader::{Input, Word, no_word, read_word};
use crate::values::Values;
use crate::words::{Command, Takes, begins_sinc, command_of, takes_of, value_of};
use system::System;

// A line that is being read: its command, none where the first word is no command's; how many of the words behind it were read, whether these have the
// `s` of a sinc, and their numbers, in `count` places, all of them right where `good` is true. `more` says that
// another word follows, and `over` that the input had no line any more.
#[derive(Clone, Copy)]
pub struct Line {
    pub input: Input,
    pub command: Option<Command>,
    pub read: usize,
    pub sinc: bool,
    pub count: usize,
    pub values: Values,
    pub good: bool,
    pub more: bool,
    pub over: bool,
}

// A line that can't be read.
#[derive(Clone, Copy, PartialEq, Eq, Debug)]
pub struct Unreadable;

// The words behind the command of a line.
fn taken(line: Line) -> &'static [Takes] {
    match line.command {
        Some(command) => takes_of(command, line.sinc),
        None => &[],
    }
}

// What the next word has to be; nothing where none is taken any more.
fn next_of(line: Line) -> Option<Takes> {
    taken(line).get(line.read).copied()
}

// The line with one word more. An L has the four places that a sinc takes.
fn with(line: Line, takes: Option<Takes>, word: Word) -> Line {
    let k = line.count;
    let sinc = begins_sinc(takes, word);
    let mut then = line;
    then.input = word.input;
    then.read = line.read.saturating_add(1);
    then.sinc = line.sinc | sinc;
    then.more = word.input.byte != b'\n';
    then.good = false;
    if let Some(n) = value_of(takes, word) {
        if k < 16 {
            let places = if takes == Some(Takes::Kind) && !sinc {
                4
            } else {
                1
            };
            then.values[k] = n;
            then.count = k + places;
            then.good = line.good;
        }
    }
    then
}

// The line with one log more, of which any number may follow: the first value is how many there are, the
// second how many bytes they have, and where each ends is kept as the bits of a sample.
fn with_log(line: Line, word: Word, ends: &mut [f64]) -> Line {
    let k = line.values[0] as usize;
    let mut then = line;
    then.input = word.input;
    then.more = word.input.byte != b'\n';
    then.good = false;
    if let Some(end) = value_of(Some(Takes::Logs), word) {
        if k < ends.len() {
            ends[k] = text::of_bits(end);
            then.values[0] = line.values[0] + 1;
            then.values[1] = end;
            then.good = line.good;
        }
    }
    then
}

// One word more; the samples of a block's output go to an area of their own. The other area takes what is
// too long for one.
fn read_next(
    sys: &mut System,
    line: Line,
    buf: &mut [u8],
    input: &mut [f64],
    output: &mut [f64],
    bytes: &mut [u8],
) -> Line {
    let takes = next_of(line);
    match takes {
        Some(Takes::Logs) => {
            let word = no_word(line.input, true, line.values[1] as usize);
            with_log(line, read_word(sys, buf, output, input, bytes, word), input)
        }
        Some(Takes::Output) => {
            let word = no_word(line.input, false, 0);
            with(line, takes, read_word(sys, buf, output, input, bytes, word))
        }
        _ => {
            let word = no_word(line.input, takes == Some(Takes::Bytes), 0);
            with(line, takes, read_word(sys, buf, input, output, bytes, word))
        }
    }
}

// The line after its first word. It is none where that is empty and nothing can follow.
fn begun(word: Word) -> Line {
    let name = word.name;
    let text = name.text();
    Line {
        input: word.input,
        command: command_of(text),
        read: 0,
        sinc: false,
        count: 0,
        values: [0; 16],
        good: word.input.byte != b':',
        more: word.input.byte != b'\n',
        over: text.is_empty() && !word.input.open,
    }
}

// The next line, read to its end: a last line without a newline is one too.
pub fn read_line(
    sys: &mut System,
    before: Input,
    buf: &mut [u8],
    input: &mut [f64],
    output: &mut [f64],
    bytes: &mut [u8],
) -> Line {
    let mut line = begun(read_word(sys, buf, input, output, bytes, no_word(before, false, 0)));
    for _ in 0..u64::MAX {
        if !line.more {
            break;
        }
        line = read_next(sys, line, buf, input, output, bytes);
    }
    line
}

// The command of a line that is right, with each word that it takes and none besides; none where there is no
// line any more.
pub fn command_in(line: Line) -> Result<Option<Command>, Unreadable> {
    if line.over {
        return Ok(None);
    }
    let all = line.read == taken(line).len();
    let logs = next_of(line) == Some(Takes::Logs) && line.values[0] > 0;
    match line.command {
        Some(command) if line.good && (all || logs) => Ok(Some(command)),
        _ => Err(Unreadable),
    }
}
