// Frames of a file: read into an area from interleaved bytes with one frame ahead. What is read no contract can
// say; which blocks are taken, how many samples a piece has, which samples of an area it reaches and where the
// held frame stands is proved.
#![tactic(auto)]

mod ahead;
mod reading;

pub use ahead::{Reading, read_first, read_frames};
