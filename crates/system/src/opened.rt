// The table of the files that were opened.
use crate::failing::{Failed, NOT_OPEN, TOO_MANY};
use crate::{Fd, System};
use std::fs::File;
use std::io::{Seek, SeekFrom};

impl System {
    // The file at a place of the table.
    pub(crate) fn file(&self, at: usize) -> Result<&File, Failed> {
        match self.files.get(at) {
            Some(Some(file)) => Ok(file),
            _ => Err(NOT_OPEN),
        }
    }

    pub(crate) fn file_mut(&mut self, at: usize) -> Result<&mut File, Failed> {
        match self.files.get_mut(at) {
            Some(Some(file)) => Ok(file),
            _ => Err(NOT_OPEN),
        }
    }

    // Puts a file into the first place of the table that is free.
    pub(crate) fn keep(&mut self, file: File) -> Result<Fd, Failed> {
        match self.files.iter().position(|place| place.is_none()) {
            Some(at) => {
                self.files[at] = Some(file);
                Ok(Fd::File(at))
            }
            None => Err(TOO_MANY),
        }
    }

    fn closed(&mut self, fd: Fd) -> Result<(), Failed> {
        let Fd::File(at) = fd else {
            return Err(NOT_OPEN);
        };
        let file = self.files.get_mut(at).and_then(|place| place.take());
        match file {
            Some(_) => Ok(()),
            None => Err(NOT_OPEN),
        }
    }

    // Closes a file that was opened.
    pub fn close(&mut self, fd: Fd) -> Result<(), Failed> {
        let closed = self.closed(fd);
        self.noted(closed)
    }

    fn begun(&mut self, fd: Fd) -> Result<u64, Failed> {
        match fd {
            Fd::File(at) => Ok(self.file_mut(at)?.seek(SeekFrom::Start(0))?),
            _ => Err(NOT_OPEN),
        }
    }

    // Whether reading the file begins again at its start.
    pub fn rewind(&mut self, fd: Fd) -> bool {
        let begun = self.begun(fd);
        self.noted(begun) == Ok(0)
    }

    fn emptied(&mut self, fd: Fd) -> Result<(), Failed> {
        match fd {
            Fd::File(at) => Ok(self.file(at)?.set_len(0)?),
            _ => Err(NOT_OPEN),
        }
    }

    // Empties the file; whether it was.
    pub fn empty(&mut self, fd: Fd) -> bool {
        let emptied = self.emptied(fd);
        self.noted(emptied).is_ok()
    }
}
