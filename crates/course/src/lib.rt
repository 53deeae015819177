// What a pass keeps from block to block beside the areas: its counts, the changes before a block and the plan
// that they come from, which frames are written, their line and record, progress, and the log's head and end.
// That each function is safe and ends is proved.
#![tactic(auto)]

mod block;
mod changes;
mod kept;
mod pass;
mod plan_file;
mod progress;
mod report;

pub use block::accepted;
pub use changes::{before_block, next_line, no_plan};
pub use pass::{Due, FirstFrame, Line, Pass, Plan, Run, Setting, Stage, refused, stop_told, tell};
pub use plan_file::plan_holds;
pub use progress::second_now;
pub use report::{ended_well, write_head};
