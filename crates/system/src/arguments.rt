// The words that the program was started with, its own name as the first.
ghost use Rattle.std.specs.Io.{WritesAtMost};

use crate::System;
use crate::failing::Failed;
use std::env::FillError;
use std::rt::Env;

// How many words there are.
pub fn counted(rt: &HostRuntime) -> usize {
    for at in 0..usize::MAX {
        if let Err(FillError::NotPresent) = rt.arg(at, &mut []) {
            return at;
        }
    }
    0
}

impl System {
    pub fn arg_count(&self) -> usize {
        self.words
    }

    // Puts a word into the buffer: its length, or why not, where there is none or no room for it. A word that is
    // there is no failure, and leaves none to be told.
    pub fn arg(&mut self, at: usize, buf: &mut [u8]) -> Result<usize, Failed>
        ensures { WritesAtMost result buf.new }
    {
        let n = self.rt.arg(at, buf);
        match n {
            Ok(n) => {
                self.last = None;
                Ok(n)
            }
            Err(e) => self.noted(Err(Failed::from(e))),
        }
    }
}
