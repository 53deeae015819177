// How far a log is read, on standard error each second.
use crate::said::say_count;
use system::System;

// The clock's second that was seen last, and whether another one was seen before.
#[derive(Clone, Copy)]
pub struct Clock {
    second: Option<i64>,
    ticked: bool,
}

impl Clock {
    pub fn now(sys: &System) -> Clock {
        Clock {
            second: sys.second(),
            ticked: false,
        }
    }

    // Whether the second has changed, but for the first time, which may come at once.
    pub fn is_due(&mut self, sys: &System) -> bool {
        let second = sys.second();
        if second == self.second {
            return false;
        }
        let due = self.ticked;
        *self = Clock {
            second,
            ticked: true,
        };
        due
    }
}

// How much of a log is walked, in percent, where its size is known.
fn percent(place: u64, size: u64) -> Option<u64> {
    if (size == 0) | (size > 1 << 57) | (place > size) {
        return None;
    }
    Some(100 * place / size)
}

// Says how much of a log is walked, in bytes where its size is not known.
pub fn say_walked(sys: &mut System, place: u64, size: u64) {
    match percent(place, size) {
        Some(done) => say_count(sys, done, b"% of the log\n", b"% of the log\n"),
        None => say_count(sys, place, b" byte of the log\n", b" bytes of the log\n"),
    }
}
