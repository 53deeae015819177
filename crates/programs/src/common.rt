// The words --out, --status and --help, which a program takes beside its own.
use crate::said::say;
use system::System;

#[derive(Clone, Copy, PartialEq, Eq)]
pub enum Name {
    Out,
    Status,
    Help,
}

// What was read so far: the program's name; the places of the files' names; which of --out and --status wants its file's name next.
// `good` is false once a word was bad: the file for the status is known all the same.
#[derive(Clone, Copy)]
pub struct Common {
    pub program: &'static [u8],
    pub out: Option<usize>,
    pub status: Option<usize>,
    pub wants: Option<Name>,
    pub help: bool,
    pub good: bool,
}

// Whether a word can name a file: one that begins with a `-` is a name of ours, or a slip.
pub fn is_file(word: &[u8]) -> bool {
    match word.first() {
        Some(first) => *first != b'-',
        None => false,
    }
}

// Whether a word can name a file that is read: `-` is standard input.
pub fn is_input(word: &[u8]) -> bool {
    is_file(word) | (word == b"-".as_slice())
}

fn name_of(word: &[u8]) -> Option<Name> {
    match word {
        b"--out" => Some(Name::Out),
        b"--status" => Some(Name::Status),
        b"--help" | b"-h" => Some(Name::Help),
        _ => None,
    }
}

impl Common {
    // Before the first word of the program of that name.
    pub fn new(program: &'static [u8]) -> Common {
        Common {
            program,
            out: None,
            status: None,
            wants: None,
            help: false,
            good: true,
        }
    }

    // Says for the program what is wrong with a word, up to the mark that opens it.
    pub fn bad(self, sys: &mut System, what: &[u8], word: &[u8]) -> Common {
        say(sys, self.program);
        say(sys, what);
        say(sys, word);
        say(sys, b"'\n");
        Common {
            good: false,
            ..self
        }
    }

    // The file's name that was wanted, at the place `at`.
    fn with_file(self, sys: &mut System, wanted: Name, at: usize, word: &[u8]) -> Common {
        if !is_file(word) {
            return self.bad(
                sys,
                b": --out and --status want a file's name of up to 4096 bytes behind them (./-x for -x), and not `",
                word,
            );
        }
        let mut s = self;
        s.wants = None;
        if wanted == Name::Out {
            s.out = Some(at);
        } else {
            s.status = Some(at);
        }
        s
    }

    fn with_name(self, sys: &mut System, name: Name, word: &[u8]) -> Common {
        let given = match name {
            Name::Out => self.out.is_some(),
            Name::Status => self.status.is_some(),
            Name::Help => {
                return Common { help: true, ..self };
            }
        };
        if given {
            return self.bad(sys, b": this is given twice: `", word);
        }
        Common {
            wants: Some(name),
            ..self
        }
    }

    // Whether a word is one of these names, or the file's name that one of them wants.
    pub fn takes(self, word: &[u8]) -> bool {
        self.wants.is_some() || name_of(word).is_some()
    }

    // Such a word, at the place `at`.
    pub fn with_word(self, sys: &mut System, at: usize, word: &[u8]) -> Common {
        if let Some(wanted) = self.wants {
            return self.with_file(sys, wanted, at, word);
        }
        match name_of(word) {
            Some(name) => self.with_name(sys, name, word),
            None => self,
        }
    }

    // Whether nothing is missing behind the last word; `lacks` says that a word of the program's own is.
    pub fn complete(self, sys: &mut System, lacks: bool, what: &[u8], example: &[u8]) -> Common {
        let short = lacks || self.out.is_none();
        if self.good && ((short && !self.help) || self.wants.is_some()) {
            return self.bad(sys, what, example);
        }
        self
    }
}
