// Files by the words that name them.
use crate::messages::{say, say_start};
use crate::options::Place;
use file_facts::Facts;
use system::{Fd, System};

// A file that is open to be written; `made` says that it was not there before.
#[derive(Clone, Copy)]
pub struct Opened {
    pub fd: Fd,
    pub made: bool,
}

// The name, out of its word, which the buffer takes.
fn name_at<'a>(sys: &mut System, place: Place, buffer: &'a mut [u8]) -> &'a [u8] {
    let n = sys.arg(place.at, buffer).unwrap_or(0);
    &buffer[place.from.min(n)..n]
}

fn tell_closed(sys: &mut System, name: &[u8]) {
    say_start(sys);
    say(sys, b"cannot open ");
    sys.fail(name);
}

// Opens the file for reading. Where it cannot be opened, that is told.
pub fn open_to_read(sys: &mut System, place: Place) -> Option<Fd> {
    let mut buffer = io::buffer();
    let name = name_at(sys, place, &mut buffer);
    let fd = sys.open_read(name).ok();
    if fd.is_none() {
        tell_closed(sys, name);
    }
    fd
}

// Opens the file for writing, empty. Where it cannot be opened, that is told.
pub fn open_to_write(sys: &mut System, place: Place) -> Option<Opened> {
    let mut buffer = io::buffer();
    let name = name_at(sys, place, &mut buffer);
    if let Ok(fd) = sys.create(name) {
        return Some(Opened { fd, made: true });
    }
    if let Ok(fd) = sys.open_overwrite(name) {
        return Some(Opened { fd, made: false });
    }
    tell_closed(sys, name);
    None
}

pub fn remove(sys: &mut System, place: Place) {
    let mut buffer = io::buffer();
    let name = name_at(sys, place, &mut buffer);
    let _ = sys.unlink(name);
}

// What the system tells of the file, or of what stands in for it where none is named.
pub fn facts_in(sys: &mut System, place: Option<Place>, usual: Option<Fd>) -> Option<Facts> {
    let Some(place) = place else {
        return file_facts::facts_of(sys, usual?);
    };
    let mut buffer = io::buffer();
    let name = name_at(sys, place, &mut buffer);
    file_facts::facts_at(sys, name)
}
