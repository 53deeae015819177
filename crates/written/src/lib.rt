// Frames of an area, written to a file as interleaved bytes. What is written no contract can say; which frames
// are taken, how many samples a piece has, which bytes are handed on and that all are written where all went
// well is proved.
#![tactic(auto)]

mod writing;

pub use writing::write_frames;
