// The system's record of a file, taken apart.
ghost use Rattle.std.specs.Prelude.{◌≡◌};
ghost use Rattle.file_facts.specs.Told.{at_least_zero, kind_of, told};

use crate::{Facts, Kind};
use system::{Failed, Record};

// The bits of a mode that say what kind of file it is (0o170000).
const KIND_BITS: u32 = 61440;

// The kind, as the system counts: a character device (0o020000), a block device (0o060000), a regular file
// (0o100000).
fn kind_of(bits: u32) -> Kind
    ensures { result ≡ kind_of bits }
{
    match bits {
        8192 => Kind::CharacterDevice,
        24576 => Kind::BlockDevice,
        32768 => Kind::Regular,
        _ => Kind::Other,
    }
}

// What the record tells, where the call that asked for it succeeded.
pub fn taken(about: Result<Record, Failed>) -> Option<Facts>
    ensures { result ≡ told about }
{
    match about {
        Ok(about) => Some(Facts {
            device: about.device,
            inode: about.inode,
            kind: kind_of(about.mode & KIND_BITS),
            size: at_least_zero(about.size),
        }),
        Err(_) => None,
    }
}

// The number, or 0 for a negative one.
fn at_least_zero(n: i64) -> u64
    ensures { result ≡ at_least_zero n }
{
    // `u64::try_from(n).unwrap_or(0)` says it too; its `returns` stayed open.
    if n < 0 { 0 } else { n as u64 }
}
