// A plan of changes, read line by line: `at BLOCK RATIO`, `ramp BLOCK RATIO`, `mask BLOCK MASK`. What is read
// no contract can say; what a line says is proved.
#![tactic(auto)]

mod entries;
mod reading;
mod words;

pub use entries::{Entry, entry_of};
pub use reading::{Cursor, Step, Unread, next_entry, start};
