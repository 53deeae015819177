// The stored answer to a line, read byte by byte and compared with the port's.
use script::reader::{Input, read_byte};
use system::System;

// The input behind a stored answer, and whether it is the crate's own and the port's answer is the same.
#[derive(Clone, Copy)]
pub struct Compared {
    pub input: Input,
    pub of_crate: bool,
    pub same: bool,
}

// A stored answer starts with the mark `=` or `:`; a line with neither holds none. At the line's end the port's
// answer must have ended too. Nothing says that a line ends, so it may have as many bytes as can be counted.
pub fn compare(sys: &mut System, buf: &mut [u8], before: Input, answer: &[u8]) -> Compared {
    let mut input = read_byte(sys, buf, before);
    let of_crate = input.byte == b'=';
    let mut same = of_crate || input.byte == b':';
    let mut rest = answer.iter().copied();
    if input.byte == b'\n' {
        return Compared {
            input,
            of_crate,
            same,
        };
    }
    for _ in 0..u64::MAX {
        input = read_byte(sys, buf, input);
        let wanted = rest.next();
        if input.byte == b'\n' {
            same = same && wanted.is_none();
            break;
        }
        same = same && wanted == Some(input.byte);
    }
    Compared {
        input,
        of_crate,
        same,
    }
}
