// The files that words name; `-` is standard input where a file is read.
ghost use Rattle.std.specs.Prelude.{◌≡◌};

use crate::said::say;
use crate::words::word_at;
use file_facts::{Facts, is_same};
use system::{Failed, Fd, System};

// Says by `what` that the file of that name could not be opened, where that is so.
fn told(sys: &mut System, what: &[u8], name: &[u8], fd: Result<Fd, Failed>) -> Option<Fd> {
    if fd.is_err() {
        say(sys, what);
        sys.fail(name);
    }
    fd.ok()
}

// Opens the file that is read.
pub fn open_input(sys: &mut System, what: &[u8], at: usize) -> Option<Fd> {
    let word = word_at(sys, at);
    let name = word.as_bytes();
    if name == b"-".as_slice() {
        return Some(system::INPUT);
    }
    let fd = sys.open_read(name);
    told(sys, what, name, fd)
}

// Opens the file that is written; what it held is gone.
pub fn open_output(sys: &mut System, what: &[u8], at: usize) -> Option<Fd> {
    let word = word_at(sys, at);
    let name = word.as_bytes();
    let fd = sys.open_overwrite(name);
    told(sys, what, name, fd)
}

// What the system tells of the file: nothing where there is no word.
pub fn facts_in(sys: &mut System, at: Option<usize>) -> Option<Facts> {
    let word = word_at(sys, at?);
    let name = word.as_bytes();
    if name == b"-".as_slice() {
        return file_facts::facts_of(sys, system::INPUT);
    }
    file_facts::facts_at(sys, name)
}

// Whether two words are one name, of a file that may not be there yet.
fn is_same_name(sys: &mut System, a: Option<usize>, b: Option<usize>) -> bool {
    let (Some(a), Some(b)) = (a, b) else {
        return false;
    };
    let first = word_at(sys, a);
    let second = word_at(sys, b);
    first.as_bytes() == second.as_bytes()
}

// Whether two words name one file.
pub fn is_one_file(sys: &mut System, a: Option<usize>, b: Option<usize>) -> bool {
    is_same(facts_in(sys, a), facts_in(sys, b)) | is_same_name(sys, a, b)
}

// Says of the file that a name names what else it is, so that nothing is written; whether it is that.
pub fn is_told(sys: &mut System, same: bool, names: &[u8], what: &[u8]) -> bool
    ensures { result ≡ same }
{
    if same {
        say(sys, names);
        say(sys, what);
        say(sys, b": nothing was written\n");
    }
    same
}
