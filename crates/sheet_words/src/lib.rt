// The call script's words on the sheet: `sheet`, and the line and the log along the calls on the one record.
// Each function is proved safe and to end.
#![tactic(auto)]

mod live;
mod over_logs;
mod texts;

pub use live::{Live, block, construction, lost, nothing, put_line, put_log, reset, setting};
pub use over_logs::put_sheet;
