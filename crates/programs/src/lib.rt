// What programs share: their words, --out, --status and --help among them, the files that words name, what is
// told, standard streams that may be closed, and the status of a run in a file. Each function is proved safe
// and to end.
#![tactic(auto)]

mod common;
mod files;
mod progress;
mod said;
mod status;
mod streams;
mod words;

pub use common::{Common, Name, is_file, is_input};
pub use files::{facts_in, is_one_file, is_told, open_input, open_output};
pub use progress::{Clock, say_walked};
pub use said::{say, say_count};
pub use status::put_status;
pub use streams::fill_low;
pub use words::{Words, read_words, word_at};
