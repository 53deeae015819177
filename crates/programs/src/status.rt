// The status of a run, in a file: `hazivotra` reads it there and ends with it.
use system::{Fd, System};

// Writes the status and a line feed into the file, if it is open, and closes it.
pub fn put_status(sys: &mut System, fd: Option<Fd>, status: u64) {
    if let Some(fd) = fd {
        sys.print_decimal(fd, status);
        sys.write_all(fd, b"\n");
        let _ = sys.close(fd);
    }
}
