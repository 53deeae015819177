// Text put into a buffer that the caller lends: bytes, numbers, floats and areas. A text is put whole
// or not at all; where there is no room for it the answer is the end of the buffer, and no text but an
// empty one finds room after that.
#![tactic(auto)]

mod areas;
mod bytes;
mod front;
mod numbers;

pub use areas::put_area;
pub use bytes::{put_byte, put_bytes};
pub use front::front_of;
pub use numbers::{put_bits, put_decimal};
