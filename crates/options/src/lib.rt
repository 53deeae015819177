// The words of resample's command line, the files that they name, its help text and its messages. That
// each function is safe and ends is proved, and no more.
#![tactic(auto)]

mod choices;
mod clashes;
mod complaints;
mod files;
mod help_text;
mod messages;
mod named;
mod names;
mod options;
mod reading;
mod status;
mod tasks;
mod told;
mod words;

pub use complaints::Bad;
pub use files::{Files, open_inputs, open_log, open_output, open_passlog, open_tones};
pub use help_text::{help, write_version};
pub use messages::{say, say_number, say_refused, say_start, say_value};
pub use options::{CHANGES, Change, Options, Place, Rates, Sinc, Target};
pub use status::write_status;
pub use tasks::Task;
pub use told::{write_blend, write_degree, write_file_name, write_window, write_words};
pub use words::read_words;
