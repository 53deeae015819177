// Writing.
ghost use Rattle.std.specs.Io.{WritesAtMost};

use crate::failing::{Failed, NOT_OPEN};
use crate::{Fd, System};
use std::io::Write;

impl System {
    fn write_some(&mut self, fd: Fd, text: &[u8]) -> Result<usize, Failed>
        ensures { WritesAtMost result text.now }
    {
        match fd {
            Fd::Output => Ok(self.rt.stdout().write(text)?),
            Fd::Error => Ok(self.rt.stderr().write(text)?),
            Fd::File(at) => Ok(self.file_mut(at)?.write(text)?),
            Fd::Input => Err(NOT_OPEN),
        }
    }

    // How many bytes one write took.
    fn written(&mut self, fd: Fd, text: &[u8]) -> Result<usize, Failed>
        ensures { WritesAtMost result text.now }
    {
        let n = self.write_some(fd, text);
        self.noted(n)
    }

    // Writes all of the text, or stops at the first write that takes nothing or fails, when some of it may be
    // written; whether all was: a write that takes nothing has no number of a failure. Of an empty text there is no
    // write. (No `for`: a turn goes as far as its write went.)
    pub fn write_all(&mut self, fd: Fd, text: &[u8]) -> bool {
        let mut rest = text;
        while !rest.is_empty() {
            let n = self.written(fd, rest).unwrap_or(0);
            if n == 0 {
                return false;
            }
            rest = &rest[n..];
        }
        true
    }

    // Writes the number in decimal digits; whether all was written.
    pub fn print_decimal(&mut self, fd: Fd, n: u64) -> bool {
        let mut text = [0u8; 20];
        let k = io::decimal(n, &mut text);
        self.write_all(fd, &text[..k])
    }

    // Writes the number in hexadecimal digits, `width` of them or more; whether all was written.
    pub fn print_hex(&mut self, fd: Fd, n: u64, width: usize) -> bool {
        let mut text = [0u8; 16];
        let k = io::hex(n, width, &mut text);
        self.write_all(fd, &text[..k])
    }
}
