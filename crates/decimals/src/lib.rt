// Numbers as words: the double of a decimal, of a quotient or of its bits in hex, each rounded once.
#![tactic(auto)]

mod nearest;
mod numbers;

pub use numbers::{number_of, quotient_of};
