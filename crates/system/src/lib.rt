// What programs ask of the system: reading, writing, opening, the words that they were started with, the clock,
// and what is known of a file. Every function that asks is lent the one `System` that `main` makes.
//
// What the system answers no contract can say: each says how much of what was lent it can have filled.
#![tactic(auto)]

mod arguments;
mod failing;
mod fd;
mod named;
mod opened;
mod reading;
mod record;
mod streams;
mod writing;

pub use failing::Failed;
pub use fd::{ERROR, Fd, INPUT, OUTPUT};
pub use reading::brought;
pub use record::Record;
use std::fs::File;
use std::time::{SystemTime, UNIX_EPOCH};

// How many standard streams there are, and how many files can be open beside them at once.
const STREAMS: usize = 3;

const ROOM: usize = 13;

#[derive(Drop)]
pub struct System {
    rt: HostRuntime,
    // What stands in for a standard stream that was closed.
    streams: [Option<File>; STREAMS],
    files: [Option<File>; ROOM],
    // The last failure, none where the last word asked for was there.
    last: Option<Failed>,
    // How many words the program was started with.
    words: usize,
}

impl System {
    pub fn new(rt: HostRuntime) -> System {
        System {
            rt,
            streams: [const { None }; STREAMS],
            files: [const { None }; ROOM],
            last: None,
            words: arguments::counted(&rt),
        }
    }

    // The second that the clock shows, if there is one.
    pub fn second(&self) -> Option<i64> {
        let time = SystemTime::now(&self.rt).ok()?;
        let past = time.duration_since(UNIX_EPOCH).ok()?;
        Some(past.as_secs().cast_signed())
    }
}
