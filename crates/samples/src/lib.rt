// Samples as bytes: a sample as eight bytes, frames interleaved in the bytes and channel after channel
// in the areas; how many samples there are; and tones to try a resampler on.
#![tactic(auto)]

mod counts;
mod frames;
mod little;
mod tones;

pub use counts::{least, samples_in, takes};
pub use frames::{gather, spread};
pub use little::{put_little, put_sample, sample_at};
pub use tones::tone_next;
