// Files by their names. A name is bytes, and std wants it as text.
ghost use Rattle.std.specs.Prelude.{◌≤◌, length};

use crate::failing::{Failed, INVALID, NO_TEXT, TOO_LONG};
use crate::{Fd, System};
use std::fs;
use std::fs::OpenOptions;

// How long a name can be, the 0 behind it among them.
const MOST: usize = 4096;

// How many bytes stand before the first 0.
pub fn up_to_zero(name: &[u8]) -> usize
    ensures { result ≤ length name.now }
{
    name.iter().position(|b| *b == 0).unwrap_or(name.len())
}

// The name as text.
pub fn text_of(name: &[u8]) -> Result<&str, Failed> {
    if name.len() >= MOST {
        return Err(TOO_LONG);
    }
    if name.contains(&0) {
        return Err(INVALID);
    }
    match std::str::from_utf8(name) {
        Ok(text) => Ok(text),
        Err(_) => Err(NO_TEXT),
    }
}

impl System {
    fn opened(&mut self, name: &[u8], how: &OpenOptions) -> Result<Fd, Failed> {
        let file = how.open(&self.rt, text_of(name)?)?;
        self.keep(file)
    }

    // Opens a file to be read.
    pub fn open_read(&mut self, name: &[u8]) -> Result<Fd, Failed> {
        let mut how = OpenOptions::new();
        how.read(true);
        let fd = self.opened(name, &how);
        self.noted(fd)
    }

    // Makes a file to be written, and fails where the name is taken.
    pub fn create(&mut self, name: &[u8]) -> Result<Fd, Failed> {
        let mut how = OpenOptions::new();
        how.write(true).create_new(true);
        let fd = self.opened(name, &how);
        self.noted(fd)
    }

    // Opens a file to be written, empties it, and makes it where it is missing.
    pub fn open_overwrite(&mut self, name: &[u8]) -> Result<Fd, Failed> {
        let mut how = OpenOptions::new();
        how.write(true).create(true).truncate(true);
        let fd = self.opened(name, &how);
        self.noted(fd)
    }

    fn removed(&mut self, name: &[u8]) -> Result<(), Failed> {
        fs::remove_file(&self.rt, text_of(name)?)?;
        Ok(())
    }

    // Takes the name away.
    pub fn unlink(&mut self, name: &[u8]) -> Result<(), Failed> {
        let gone = self.removed(name);
        self.noted(gone)
    }
}
