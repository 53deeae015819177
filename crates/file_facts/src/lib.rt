// What the system tells of a file: enough to see that two names or descriptors are one file.
//
// No contract says what the system answers, so of `facts_of` and `facts_at` only safety is proved.
#![tactic(auto)]

mod name;
mod taken;

ghost use Rattle.std.specs.Prelude.{◌≡◌};
ghost use Rattle.file_facts.specs.Same.{one_file, same_kept, regular, size_of};

use system::{Fd, System};
use taken::taken;

// What kind of file it is.
#[derive(Clone, Copy, PartialEq, Eq)]
pub enum Kind {
    CharacterDevice,
    BlockDevice,
    Regular,
    Other,
}

#[derive(Clone, Copy)]
pub struct Facts {
    pub device: u64,
    pub inode: u64,
    pub kind: Kind,
    // The size in bytes, 0 for a negative one.
    pub size: u64,
}

// What is known of the open file fd, if the system tells of it.
pub fn facts_of(sys: &mut System, fd: Fd) -> Option<Facts> {
    taken(sys.stat_open(fd))
}

// What is known of the file at path, or at the end of the links there. A path that is too long for
// the system or has a 0 in it names no file.
pub fn facts_at(sys: &mut System, path: &[u8]) -> Option<Facts> {
    if !name::is_path(path) {
        return None;
    }
    taken(sys.stat_named(&name::ended(path)))
}

// Whether the two are one file in which writing could change what is read. A character device, as a
// terminal or /dev/null, may serve twice.
pub fn same_file(a: Option<Facts>, b: Option<Facts>) -> bool
    ensures { result ≡ one_file a b }
{
    match (a, b) {
        (Some(a), Some(b)) => {
            (a.device == b.device) & (a.inode == b.inode) & !matches!(a.kind, Kind::CharacterDevice)
        }
        _ => false,
    }
}

// Whether both are one file that writing changes: no pipe and no socket, which may be read and written.
pub fn is_same(a: Option<Facts>, b: Option<Facts>) -> bool
    ensures { result ≡ same_kept a b }
{
    let Some(facts) = a else {
        return false;
    };
    let kept = matches!(facts.kind, Kind::Regular | Kind::BlockDevice);
    same_file(a, b) & kept
}

// Whether it is a regular file.
pub fn is_regular(a: Option<Facts>) -> bool
    ensures { result ≡ regular a }
{
    match a {
        Some(a) => matches!(a.kind, Kind::Regular),
        None => false,
    }
}

// The size of a regular file, else 0.
pub fn size_of(a: Option<Facts>) -> u64
    ensures { result ≡ size_of a }
{
    match a {
        Some(facts) if is_regular(a) => facts.size,
        _ => 0,
    }
}
