// The words of the command line, one after the other.
use programs::Common;
use system::System;

// The place of the log's name, and the other words.
#[derive(Clone, Copy)]
pub struct Words {
    pub file: Option<usize>,
    pub common: Common,
}

// Says what is wrong with a word.
fn bad(sys: &mut System, w: Words, what: &[u8], word: &[u8]) -> Words {
    Words {
        common: w.common.bad(sys, what, word),
        ..w
    }
}

// The log's name, at the place `at`.
fn with_log(sys: &mut System, w: Words, at: usize, word: &[u8]) -> Words {
    if w.file.is_some() {
        return bad(sys, w, b": one word too many: `", word);
    }
    if !programs::is_input(word) {
        return bad(
            sys,
            w,
            b": wanted is a file's name of up to 4096 bytes (./-x for -x; - is standard input), --out, --status or --help, and not `",
            word,
        );
    }
    Words {
        file: Some(at),
        ..w
    }
}

impl programs::Words for Words {
    fn common(self) -> Common {
        self.common
    }

    fn with_word(self, sys: &mut System, at: usize, word: &[u8]) -> Words {
        if !self.common.takes(word) {
            return with_log(sys, self, at, word);
        }
        Words {
            common: self.common.with_word(sys, at, word),
            ..self
        }
    }
}

// All the words. What is wrong with them, or missing behind the last, is told.
pub fn read_words(sys: &mut System) -> Words {
    let none = Words {
        file: None,
        common: Common::new(b"salvage"),
    };
    let w = programs::read_words(sys, none);
    Words {
        common: w.common.complete(
            sys,
            w.file.is_none(),
            b": a word is missing (--help says more); wanted are FILE --out FILE, as in `",
            b"pass.log --out good.log",
        ),
        ..w
    }
}
