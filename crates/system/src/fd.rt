// What bytes are read from and written to.
ghost use Rattle.std.specs.Prelude.{◌≡◌};
ghost use Rattle.system.specs.Opened.{is_opened};

// A standard stream, or a file by its place in the table of the files that were opened.
#[derive(Clone, Copy, PartialEq, Eq)]
pub enum Fd {
    Input,
    Output,
    Error,
    File(usize),
}

pub const INPUT: Fd = Fd::Input;

pub const OUTPUT: Fd = Fd::Output;

pub const ERROR: Fd = Fd::Error;

impl Fd {
    // Whether it is a file that was opened, which can be closed.
    pub fn is_file(self) -> bool
        ensures { result ≡ is_opened self }
    {
        matches!(self, Fd::File(_))
    }
}
