// The picture's file.
use crate::files::open_out;
use crate::told::say_word;
use bounded::Text;
use drift_picture::{Chart, put_picture};
use sheets::Total;
use system::{Fd, System};

// Writes all of the text to the file, or leaves none of it there, and tells why; whether it was written.
fn is_put(sys: &mut System, fd: Fd, text: &[u8]) -> bool {
    let all = sys.write_all(fd, text);
    if !all {
        sys.fail(b"sheet: writing the picture");
        sys.empty(fd);
    }
    let closed = sys.close(fd).is_ok();
    if !closed {
        sys.fail(b"sheet: closing the picture");
    }
    all & closed
}

// Writes the picture into the file that the word at the place `word` names. Where that fails, it is told.
pub fn draw(sys: &mut System, word: usize, logs: usize, t: Total, chart: &mut Chart) -> bool {
    chart.finish();
    // A picture of 1,024 points is shorter than that.
    let mut text = Text::<65536>::new();
    let _ = put_picture(&mut text, logs, t, chart.points());
    let done = match open_out(sys, word) {
        Some(fd) => is_put(sys, fd, text.as_bytes()),
        None => false,
    };
    if !done {
        say_word(sys, b"sheet: the picture ", word, b" was not written\n");
    }
    done
}
