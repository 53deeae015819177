// Reading.
ghost use Rattle.std.specs.Prelude.{◌≡◌, ◌≤◌, length, IfOk, IfErr};
ghost use Rattle.std.specs.Io.{ReadsAtMost};

use crate::failing::{Failed, NOT_OPEN};
use crate::{Fd, System};
use std::io::Read;

// How many bytes a read brought: none where it failed.
pub fn brought(got: Result<usize, Failed>) -> usize
    ensures all { IfOk got (λ n. result ≡ n) }
    ensures none { IfErr got (λ e. result ≡ 0) }
{
    got.unwrap_or(0)
}

impl System {
    fn read_some(&mut self, fd: Fd, buf: &mut [u8]) -> Result<usize, Failed>
        ensures { ReadsAtMost result buf.new }
    {
        match fd {
            Fd::Input => Ok(self.rt.stdin().read(buf)?),
            Fd::File(at) => Ok(self.file_mut(at)?.read(buf)?),
            _ => Err(NOT_OPEN),
        }
    }

    // Reads once: so many bytes at the front of the buffer, none at the end of the input.
    pub fn read(&mut self, fd: Fd, buf: &mut [u8]) -> Result<usize, Failed>
        ensures { ReadsAtMost result buf.new }
    {
        let got = self.read_some(fd, buf);
        self.noted(got)
    }

    // Reads until the buffer is full, the input ends or a read fails, and answers how many bytes there are. (No
    // `for`: a turn goes as far as its read went.)
    pub fn read_full(&mut self, fd: Fd, buf: &mut [u8]) -> usize
        ensures { result ≤ length buf.new }
    {
        let mut done = 0;
        while done < buf.len() {
            let n = brought(self.read(fd, &mut buf[done..]));
            if n == 0 {
                break;
            }
            done += n;
        }
        done
    }
}
