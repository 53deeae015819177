// Numbers and doubles as text: bits of doubles, hex and decimal digits, and areas of samples as runs
// of hex digits.
#![tactic(auto)]

mod areas;
mod bits;
mod digits;
mod signed;
mod words;

pub use areas::{Area, area_done, area_step};
pub use bits::{bits_of, of_bits};
pub use digits::{digit_of, glyph_of, put_hex};
pub use signed::size_of;
pub use words::{
    Run, decimal_done, decimal_of, decimal_step, hex_done, hex_of, hex_step, no_digits,
};
