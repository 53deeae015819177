// The words of the command line, and what they name, for the log.
use crate::choices::{blend_text, degree_text, window_text};
use crate::names::Name;
use crate::options::Place;
use asynchro_fast::PolynomialDegree;
use asynchro_sinc::SincInterpolationType;
use system::{Fd, System};
use windows::WindowFunction;

// Whether the next word is left out, whether one stands before it, and whether all was written: any of the eight
// can be, so an enum would be no plainer.
#[derive(Clone, Copy)]
struct Telling {
    skip: bool,
    begun: bool,
    good: bool,
}

// A byte that a line can have: a `?` for a control character.
fn plain(byte: u8) -> u8 {
    if byte.is_ascii_control() { b'?' } else { byte }
}

// The word, with a space before it where one stands there: in one write.
fn write_spaced(sys: &mut System, fd: Fd, begun: bool, word: &[u8]) -> bool {
    let mut line = [b' '; 4100];
    let start = usize::from(begun);
    for (place, byte) in line[start..].iter_mut().zip(word) {
        *place = plain(*byte);
    }
    let end = start.saturating_add(word.len()).min(4100);
    sys.write_all(fd, &line[..end])
}

// A word: --status is left out, with its value.
fn tell_word(sys: &mut System, fd: Fd, t: Telling, word: &[u8]) -> Telling {
    let joined = scan::find(word, b'=');
    let name = match joined {
        Some(end) => &word[..end],
        None => word,
    };
    if Name::of(name) == Some(Name::Status) {
        return Telling {
            skip: joined.is_none(),
            ..t
        };
    }
    Telling {
        skip: false,
        begun: true,
        good: t.good & write_spaced(sys, fd, t.begun, word),
    }
}

fn tell_next(sys: &mut System, fd: Fd, t: Telling, at: usize) -> Telling {
    if t.skip {
        return Telling { skip: false, ..t };
    }
    let mut word = io::buffer();
    let n = sys.arg(at, &mut word).unwrap_or(0);
    tell_word(sys, fd, t, &word[..n])
}

// All words but the program's name and `--status FILE`, parted by spaces; whether they were written.
pub fn write_words(sys: &mut System, fd: Fd) -> bool {
    let mut t = Telling {
        skip: false,
        begun: false,
        good: true,
    };
    for at in 1..sys.arg_count() {
        t = tell_next(sys, fd, t, at);
    }
    t.good
}

// The names of a degree, a blend and a window, and a file's name; whether each was written.
pub fn write_degree(sys: &mut System, fd: Fd, degree: PolynomialDegree) -> bool {
    sys.write_all(fd, degree_text(degree).as_bytes())
}

pub fn write_blend(sys: &mut System, fd: Fd, blend: SincInterpolationType) -> bool {
    sys.write_all(fd, blend_text(blend).as_bytes())
}

pub fn write_window(sys: &mut System, fd: Fd, window: WindowFunction) -> bool {
    sys.write_all(fd, window_text(window).as_bytes())
}

pub fn write_file_name(sys: &mut System, fd: Fd, place: Place) -> bool {
    let mut word = io::buffer();
    let n = sys.arg(place.at, &mut word).unwrap_or(0);
    write_spaced(sys, fd, false, &word[place.from.min(n)..n])
}
