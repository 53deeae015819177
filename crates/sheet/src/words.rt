// The words of the command line, one after the other.
use programs::Common;
use system::System;

// How many logs are named, and whether standard input is one; the place of the picture's name, and
// whether it is wanted next; and the other words.
#[derive(Clone, Copy)]
pub struct Words {
    pub logs: usize,
    pub input: bool,
    pub picture: Option<usize>,
    pub wants: bool,
    pub common: Common,
}

// Says what is wrong with a word.
fn bad(sys: &mut System, w: Words, what: &[u8], word: &[u8]) -> Words {
    Words {
        common: w.common.bad(sys, what, word),
        ..w
    }
}

// A log's name.
fn with_log(sys: &mut System, w: Words, word: &[u8]) -> Words {
    let input = word == b"-".as_slice();
    if input & w.input {
        return bad(
            sys,
            w,
            b": standard input can be read once, and this is given twice: `",
            word,
        );
    }
    if !programs::is_input(word) {
        return bad(
            sys,
            w,
            b": wanted is a log's name of up to 4096 bytes (./-x for -x; - is standard input), --picture, --status or --help, and not `",
            word,
        );
    }
    Words {
        logs: w.logs.wrapping_add(1),
        input: input | w.input,
        ..w
    }
}

// The picture's name, at the place `at`.
fn with_picture(sys: &mut System, w: Words, at: usize, word: &[u8]) -> Words {
    if !programs::is_file(word) {
        return bad(
            sys,
            w,
            b": --picture wants a file's name of up to 4096 bytes behind it (./-x for -x), and not `",
            word,
        );
    }
    Words {
        picture: Some(at),
        wants: false,
        ..w
    }
}

fn with_name(sys: &mut System, w: Words, word: &[u8]) -> Words {
    if w.picture.is_some() {
        return bad(sys, w, b": this is given twice: `", word);
    }
    Words { wants: true, ..w }
}

impl programs::Words for Words {
    fn common(self) -> Common {
        self.common
    }

    fn with_word(self, sys: &mut System, at: usize, word: &[u8]) -> Words {
        let common = self.common;
        if self.wants {
            return with_picture(sys, self, at, word);
        }
        if common.wants.is_none() {
            match word {
                b"--picture" => return with_name(sys, self, word),
                b"--out" => return with_log(sys, self, word),
                _ => {}
            }
        }
        if !common.takes(word) {
            return with_log(sys, self, word);
        }
        Words {
            common: common.with_word(sys, at, word),
            ..self
        }
    }
}

// Whether nothing is missing behind the last word.
fn complete(sys: &mut System, w: Words) -> Words {
    let common = w.common;
    let lacks = (w.logs == 0) & !common.help;
    if common.good & (lacks | w.wants | (common.wants.is_some())) {
        return bad(
            sys,
            w,
            b": a word is missing (--help says more); wanted is LOG .., as in `",
            b"pass.log --picture drift.svg",
        );
    }
    w
}

// Whether the word at the place `at` names a log, of words that are good.
pub fn is_log(sys: &mut System, w: Words, at: usize) -> bool {
    let common = w.common;
    let word = programs::word_at(sys, at);
    let names = programs::is_input(word.as_bytes());
    names & (Some(at) != w.picture) & (Some(at) != common.status)
}

// All the words. What is wrong with them is told.
pub fn read_words(sys: &mut System) -> Words {
    let none = Words {
        logs: 0,
        input: false,
        picture: None,
        wants: false,
        common: Common::new(b"sheet"),
    };
    let w = programs::read_words(sys, none);
    complete(sys, w)
}
