// A path as the system reads it, up to a 0.
ghost use Rattle.file_facts.specs.Ended.{Ended};

// How many bytes a path has at most, the 0 behind it among them.
pub const PATH_MAX: usize = 4096;

const LAST: usize = PATH_MAX - 1;

// Whether the system can be handed all of path: it leaves room for a 0, and has none.
pub fn is_path(path: &[u8]) -> bool {
    path.len() < PATH_MAX && !path.contains(&0)
}

// As much of path as leaves room for a 0, and then zeros.
pub fn ended(path: &[u8]) -> [u8; PATH_MAX]
    ensures { Ended result }
{
    let mut ended = [0u8; PATH_MAX];
    let n = path.len().min(LAST);
    ended[..n].copy_from_slice(&path[..n]);
    // The last byte is one of the zeros already; the check finds `Ended` by this line.
    ended[LAST] = 0;
    ended
}
