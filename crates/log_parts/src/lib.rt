// A log in parts, as the programs read it: the part of it that stands in the buffer, and where the walk stands.
#![tactic(auto)]

mod part;
mod walk;

pub use part::{Part, more, passed};
pub use walk::{Walk, after};
