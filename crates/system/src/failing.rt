// What failed last.
ghost use Rattle.std.specs.Prelude.{◌≡◌};

use crate::{ERROR, System};
use bounded::Text;
use std::env::FillError;
use std::fmt::Write;
use std::{fmt, io};

// Why the system did not do what it was asked: C's number of the failure.
#[derive(Clone, Copy, PartialEq, Eq)]
pub struct Failed {
    number: i32,
}

// The name has a 0 in it; it is too long; it is no text as std wants it.
pub const INVALID: Failed = Failed { number: 22 };

pub const TOO_LONG: Failed = Failed { number: 36 };

pub const NO_TEXT: Failed = Failed { number: 84 };

// No file is open at this place; too many are.
pub const NOT_OPEN: Failed = Failed { number: 9 };

pub const TOO_MANY: Failed = Failed { number: 24 };

// Of a failure that std gives no number.
const OTHER: i32 = 5;

// Nothing failed: the system has a text for that too.
const NONE: Failed = Failed { number: 0 };

impl From<io::Error> for Failed {
    fn from(e: io::Error) -> Failed {
        Failed {
            number: e.raw_os_error().unwrap_or(OTHER),
        }
    }
}

impl From<FillError> for Failed {
    fn from(e: FillError) -> Failed {
        match e {
            FillError::NotPresent => INVALID,
            FillError::TooLong => TOO_LONG,
        }
    }
}

// The system's text of the failure. std writes its number behind it, which is left out.
impl fmt::Display for Failed {
    fn fmt<W: fmt::Write>(&self, f: &mut fmt::Formatter<W>) -> fmt::Result {
        let e = io::Error::from_raw_os_error(self.number);
        let mut text = Text::<128>::new();
        write!(text, "{e}")?;
        match std::str::from_utf8(text.as_bytes()) {
            Ok(text) => match text.split_once(" (os error ") {
                Some((told, _)) => f.write_str(told),
                None => f.write_str(text),
            },
            Err(_) => Err(fmt::Error),
        }
    }
}

impl System {
    // Keeps a failure as the last one.
    pub(crate) fn noted<T>(&mut self, answer: Result<T, Failed>) -> Result<T, Failed>
        ensures { result ≡ answer }
    {
        if let Err(e) = &answer {
            self.last = Some(*e);
        }
        answer
    }

    // Writes a line to standard error: what failed, as the caller names it, a colon and the system's text of
    // the last failure.
    pub fn fail(&mut self, what: &[u8]) {
        let last = self.last.unwrap_or(NONE);
        let mut text = Text::<128>::new();
        let _ = write!(text, "{last}");
        self.write_all(ERROR, what);
        self.write_all(ERROR, b": ");
        self.write_all(ERROR, text.as_bytes());
        self.write_all(ERROR, b"\n");
    }
}
