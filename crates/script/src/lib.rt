// The call script's lines (docs/CALLS.md), read from standard input: the command, and the numbers, areas
// and bytes of its words.
#![tactic(auto)]

pub mod bytes;
pub mod line;
mod names;
pub mod reader;
pub mod values;
pub mod words;
