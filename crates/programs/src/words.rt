// The words of a command line, one after the other.
use crate::common::Common;
use bounded::Text;
use system::System;

// What a program's words say so far.
pub trait Words: Copy {
    fn common(self) -> Common;

    // With the word at the place `at`.
    fn with_word(self, sys: &mut System, at: usize, word: &[u8]) -> Self;
}

// The word at the place `at`. One of more than 4,096 bytes is read as an empty one, which is bad wherever it
// stands.
pub fn word_at(sys: &mut System, at: usize) -> Text<4096> {
    let mut word = io::buffer();
    let n = sys.arg(at, &mut word).unwrap_or(0);
    let mut text = Text::new();
    let _ = text.put(&word[..n]);
    text
}

// All the words, up to one that is bad; `none` is before the first.
pub fn read_words<W: Words>(sys: &mut System, none: W) -> W {
    let mut w = none;
    for at in 1..sys.arg_count() {
        let common = w.common();
        if !common.good {
            break;
        }
        let word = word_at(sys, at);
        w = w.with_word(sys, at, word.as_bytes());
    }
    w
}
