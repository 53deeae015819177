// What the system tells of a file.
use crate::failing::Failed;
use crate::named::{text_of, up_to_zero};
use crate::{Fd, System};
use std::fs;
use std::fs::Metadata;
use std::os::unix::fs::MetadataExt;

// `mode` has the kind of file and who may do what with it, `special` is the device that a special file
// stands for.
#[derive(Clone, Copy)]
pub struct Record {
    pub device: u64,
    pub inode: u64,
    pub mode: u32,
    pub special: u64,
    pub size: i64,
}

impl From<Metadata> for Record {
    fn from(m: Metadata) -> Record {
        Record {
            device: m.dev(),
            inode: m.ino(),
            mode: m.mode(),
            special: m.rdev(),
            size: m.size().cast_signed(),
        }
    }
}

impl System {
    // std tells of a standard stream only by its name.
    fn told_open(&self, fd: Fd) -> Result<Record, Failed> {
        let m = match fd {
            Fd::Input => fs::metadata(&self.rt, "/proc/self/fd/0"),
            Fd::Output => fs::metadata(&self.rt, "/proc/self/fd/1"),
            Fd::Error => fs::metadata(&self.rt, "/proc/self/fd/2"),
            Fd::File(at) => self.file(at)?.metadata(),
        };
        Ok(Record::from(m?))
    }

    fn told_named(&self, path: &[u8]) -> Result<Record, Failed> {
        let text = text_of(&path[..up_to_zero(path)])?;
        Ok(Record::from(fs::metadata(&self.rt, text)?))
    }

    // What is known of an open file.
    pub fn stat_open(&mut self, fd: Fd) -> Result<Record, Failed> {
        let told = self.told_open(fd);
        self.noted(told)
    }

    // The same of the file at a path, which goes up to its first 0, or at the end of the links there.
    pub fn stat_named(&mut self, path: &[u8]) -> Result<Record, Failed> {
        let told = self.told_named(path);
        self.noted(told)
    }
}
