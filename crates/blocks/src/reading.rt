// Samples of a file, read in pieces. Only this crate calls these functions.
ghost use Rattle.std.specs.Prelude.{◌≡◌, ◌*◌, ◌<◌, ◌≤◌, length};
ghost use Rattle.blocks.specs.Blocks.{PieceRead, PiecesRead};

use samples::{least, samples_in, spread};
use system::{Fd, System};

// So many bytes have been read, and whether a read failed behind them.
#[derive(Clone, Copy)]
struct Filled {
    count: usize,
    failed: bool,
}

// What stands in an area: so many samples, counted from its first one, and the bytes of a broken one behind
// them; and whether the input is over.
#[derive(Clone, Copy)]
pub struct Piece {
    pub samples: usize,
    pub rest: usize,
    pub ended: bool,
    pub failed: bool,
}

// Reads `want` bytes, or fewer where the input ends or a read fails.
fn fill(sys: &mut System, fd: Fd, bytes: &mut [u8], want: usize) -> Filled
    requires { want ≤ length bytes.old }
    ensures { result.count ≤ want }
{
    let mut count = 0;
    while count < want {
        match sys.read(fd, &mut bytes[count..want]) {
            Ok(0) => break,
            Ok(n) => count += n,
            Err(_) => return Filled {
                count,
                failed: true,
            },
        }
    }
    Filled {
        count,
        failed: false,
    }
}

// Behind `done` samples as many more as the buffer holds.
fn read_piece(
    sys: &mut System,
    fd: Fd,
    bytes: &mut [u8],
    area: &mut [f64],
    channels: usize,
    share: usize,
    most: usize,
    done: usize,
) -> Piece
    requires { (0 < channels) × (most ≡ channels * share) × (most ≤ 1048576) × (most ≤ length area.old) × (done ≤ most) }
    ensures { PieceRead (length bytes.old) channels share most done area.old area.new result.samples result.rest result.ended }
{
    let want = least(bytes.len() / 8, most - done);
    let filled = fill(sys, fd, bytes, 8 * want);
    let count = filled.count;
    let n = count / 8;
    spread(bytes, n, area, channels, share, done);
    Piece {
        samples: done + n,
        rest: count % 8,
        ended: count < 8 * want,
        failed: filled.failed,
    }
}

// The samples behind `done` of an area of `share` frames, in pieces: none where the input is over. Each
// turn reads one or more, or finds the end.
pub fn read_pieces(
    sys: &mut System,
    fd: Fd,
    bytes: &mut [u8],
    area: &mut [f64],
    channels: usize,
    share: usize,
    most: usize,
    done: usize,
    over: bool,
) -> Piece
    requires { (0 < channels) × (most ≡ channels * share) × (most ≤ 1048576) × (most ≤ length area.old) × (done ≤ most) × (8 ≤ length bytes.old) }
    ensures { PiecesRead channels share most done over area.old area.new result.samples result.rest result.ended }
{
    let mut p = Piece {
        samples: done,
        rest: 0,
        ended: over,
        failed: false,
    };
    while !p.ended & (p.samples < most) {
        p = read_piece(sys, fd, bytes, area, channels, share, most, p.samples);
    }
    p
}

// The same with a buffer of its own.
pub fn read_area(
    sys: &mut System,
    fd: Fd,
    area: &mut [f64],
    channels: usize,
    share: usize,
    done: usize,
    over: bool,
) -> Piece
    requires { (0 < channels) × (channels ≤ 16) × (share ≤ 65536) × (channels * share ≤ length area.old) × (done ≤ channels * share) }
    ensures { PiecesRead channels share (channels * share) done over area.old area.new result.samples result.rest result.ended }
{
    let most = samples_in(channels, share);
    let mut bytes = [0u8; 8192];
    read_pieces(sys, fd, &mut bytes, area, channels, share, most, done, over)
}
