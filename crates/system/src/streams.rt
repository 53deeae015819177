// Standard streams that are closed.
use crate::failing::Failed;
use crate::{Fd, System};
use std::fs::{File, OpenOptions};
use std::os::fd::AsRawFd;

impl System {
    fn null(&self, writes: bool) -> Result<File, Failed> {
        let mut how = OpenOptions::new();
        how.read(true).write(writes);
        Ok(how.open(&self.rt, "/dev/null")?)
    }

    // A file that has become a standard stream stays open.
    fn keep_low(&mut self, file: File) -> Option<Fd> {
        let (at, fd) = match file.as_raw_fd() {
            0 => (0, Fd::Input),
            1 => (1, Fd::Output),
            2 => (2, Fd::Error),
            _ => return None,
        };
        self.streams[at] = Some(file);
        Some(fd)
    }

    fn filled(&mut self, writes: bool) -> Result<Option<Fd>, Failed> {
        let file = self.null(writes)?;
        Ok(self.keep_low(file))
    }

    // Opens /dev/null in place of the first standard stream that is closed, and answers which that is, if one
    // is closed; it fails where /dev/null cannot be opened. Such an input is empty, writing to such an output
    // fails, and such a standard error is nowhere.
    pub fn stand_in(&mut self) -> Result<Option<Fd>, Failed> {
        let fd = self.filled(false);
        if fd == Ok(Some(Fd::Error)) {
            self.streams[2] = None;
            let again = self.filled(true);
            let _ = self.noted(again);
        }
        self.noted(fd)
    }
}
