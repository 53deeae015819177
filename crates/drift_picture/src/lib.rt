// The picture of the sheet: the points that blocks leave, and the distance and its bound over the output frames, as
// the text of an SVG.
#![tactic(auto)]

mod axes;
mod chart;
mod heights;
mod pen;
mod picture;
mod view;

pub use chart::{Chart, Point};
pub use picture::put_picture;
