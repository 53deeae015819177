// Positions: a signed whole part and 192 fraction bits, held in the 256 bits of a Big, the whole part in the
// upper 64. No operation rounds; one whose result would need another whole part is None.
#![tactic(auto)]

mod double;
mod held;

pub use double::{NoPosition, of_double};
pub use held::{distance, sum, times, with_whole};
