// The words of the command line, one after the other.
use crate::named::window_named;
use programs::Common;
use system::System;
use windows::WindowFunction;

// What was read so far: how many of POINTS, FACTOR, CUTOFF and WINDOW, and what they say; and the others.
#[derive(Clone, Copy)]
pub struct Words {
    pub plain: usize,
    pub points: usize,
    pub factor: usize,
    pub cutoff: f64,
    pub window: WindowFunction,
    pub common: Common,
}

// Says what is wrong with a word.
fn bad(sys: &mut System, w: Words, what: &[u8], word: &[u8]) -> Words {
    Words {
        common: w.common.bad(sys, what, word),
        ..w
    }
}

fn with_count(sys: &mut System, w: Words, word: &[u8]) -> Words {
    let Some(n) = text::decimal_of(word) else {
        return bad(
            sys,
            w,
            b": POINTS and FACTOR take a whole number below 2^64, and not `",
            word,
        );
    };
    if w.plain == 0 {
        return Words {
            plain: 1,
            points: n as usize,
            ..w
        };
    }
    Words {
        plain: 2,
        factor: n as usize,
        ..w
    }
}

fn with_cutoff(sys: &mut System, w: Words, word: &[u8]) -> Words {
    let Some(x) = decimals::number_of(word) else {
        return bad(
            sys,
            w,
            b": CUTOFF takes a decimal of up to 19 digits (0.9), a quotient of two whole numbers of up to 19 digits (9/10) or 16 hex digits of bits (x3feccccccccccccd), and not `",
            word,
        );
    };
    Words {
        plain: 3,
        cutoff: x,
        ..w
    }
}

fn with_window(sys: &mut System, w: Words, word: &[u8]) -> Words {
    let Some(window) = window_named(word) else {
        return bad(
            sys,
            w,
            b": WINDOW takes hann, hann2, blackman, blackman2, blackman-harris, blackman-harris2, or h, h2, b, b2, bh, bh2, and not `",
            word,
        );
    };
    Words {
        plain: 4,
        window,
        ..w
    }
}

impl programs::Words for Words {
    fn common(self) -> Common {
        self.common
    }

    fn with_word(self, sys: &mut System, at: usize, word: &[u8]) -> Words {
        if self.common.takes(word) {
            return Words {
                common: self.common.with_word(sys, at, word),
                ..self
            };
        }
        match self.plain {
            0 | 1 => with_count(sys, self, word),
            2 => with_cutoff(sys, self, word),
            3 => with_window(sys, self, word),
            _ => bad(sys, self, b": one word too many: `", word),
        }
    }
}

// All the words. What is wrong with them, or missing behind the last, is told.
pub fn read_words(sys: &mut System) -> Words {
    let none = Words {
        plain: 0,
        points: 0,
        factor: 0,
        cutoff: 0.0,
        window: WindowFunction::Hann,
        common: Common::new(b"table"),
    };
    let w = programs::read_words(sys, none);
    Words {
        common: w.common.complete(
            sys,
            w.plain < 4,
            b": a word is missing (--help says more); wanted are POINTS FACTOR CUTOFF WINDOW --out FILE, as in `",
            b"64 16 0.9 bh2 --out t.f64",
        ),
        ..w
    }
}
