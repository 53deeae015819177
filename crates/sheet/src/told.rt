// What is told of a log, by its name, on standard error.
use programs::say;
use system::System;

// The word at the place `at`, between two texts.
pub fn say_word(sys: &mut System, before: &[u8], at: usize, behind: &[u8]) {
    let word = programs::word_at(sys, at);
    say(sys, before);
    say(sys, word.as_bytes());
    say(sys, behind);
}
