// What is wrong with the words, told.
use crate::messages::{say, say_start};
use crate::names::Name;
use system::System;

// The words are bad, and that is told.
#[derive(Clone, Copy)]
pub struct Bad;

// About a word, which stands behind the text.
#[derive(Clone, Copy)]
pub enum BadWord {
    Number,
    Count,
    Degree,
    Side,
    Window,
    Blend,
    File,
    Unknown,
    NoValue,
}

// About a name, or about none.
#[derive(Clone, Copy)]
pub enum Complaint {
    Rates,
    TooLong,
    Twice,
    LacksOne,
    LacksTwo,
    LacksThree,
    TooManyChanges,
    TwoRatios,
    TwoKinds,
    NoSinc,
    WithTable,
    NoRatio,
    Idle,
    LogOnOutput,
}

impl BadWord {
    fn text(self) -> &'static str {
        match self {
            BadWord::Number => {
                " takes a decimal of up to 19 digits (1.25), a quotient of two whole numbers of up to 19 digits (160/147) or 16 hex digits of bits (x3ff4000000000000), and not `"
            }
            BadWord::Count => " takes a whole number below 2^64, and not `",
            BadWord::Degree => " takes nearest, linear, cubic, quintic or septic, and not `",
            BadWord::Side => " takes in or out, and not `",
            BadWord::Window => {
                " takes hann, hann2, blackman, blackman2, blackman-harris, blackman-harris2, or h, h2, b, b2, bh, bh2, and not `"
            }
            BadWord::Blend => {
                " takes the blends nearest, linear, quadratic and cubic, and not `"
            }
            BadWord::File => " takes the name of a file, and not `",
            BadWord::Unknown => "unknown word (--help says which there are): `",
            BadWord::NoValue => " takes no value behind a `=', as in `",
        }
    }
}

impl Complaint {
    fn text(self) -> &'static str {
        match self {
            Complaint::Rates => " takes two whole numbers of up to 19 digits, the first not 0",
            Complaint::TooLong => "a word is longer than 4096 bytes",
            Complaint::Twice => " is given twice",
            Complaint::LacksOne => {
                " wants a value behind it, of at most 4096 bytes (--help says more)"
            }
            Complaint::LacksTwo => {
                " wants two values behind it, of at most 4096 bytes each (--help says more)"
            }
            Complaint::LacksThree => {
                " wants three values behind it, of at most 4096 bytes each: POINTS FACTOR BLEND, as in --sinc 128 256 cubic"
            }
            Complaint::TooManyChanges => {
                " is the 17th change: --plan FILE takes any number of them"
            }
            Complaint::TwoRatios => " and --ratio are both given: one of them is enough",
            Complaint::TwoKinds => {
                " and --degree are both given: a pass has a sinc or a polynomial"
            }
            Complaint::NoSinc => " does nothing without --sinc",
            Complaint::WithTable => {
                " does nothing with --table, which has the table that it would help to build"
            }
            Complaint::NoRatio => " R is missing (--help says more)",
            Complaint::Idle => " does nothing with --tones",
            Complaint::LogOnOutput => " - wants --out FILE, since samples go to standard output",
        }
    }
}

fn start(sys: &mut System, name: Option<Name>, text: &str) {
    say_start(sys);
    if let Some(name) = name {
        say(sys, name.text().as_bytes());
    }
    say(sys, text.as_bytes());
}

pub fn complain(sys: &mut System, name: Option<Name>, complaint: Complaint) -> Bad {
    start(sys, name, complaint.text());
    say(sys, b"\n");
    Bad
}

// The same, of a word, before which the line has the opening mark.
pub fn complain_of(sys: &mut System, name: Option<Name>, what: BadWord, word: &[u8]) -> Bad {
    start(sys, name, what.text());
    say(sys, word);
    say(sys, b"'\n");
    Bad
}
