// A line of the sheet: what is added up along one stream from its start, of a log's records or of live calls.
#![tactic(auto)]

mod adding;

ghost use Rattle.std.specs.Prelude.{◌≡◌};
ghost use Rattle.big.specs.Value.{value_of};
ghost use Rattle.positions.specs.Positions.{held_in};
ghost use Rattle.lines.specs.Lines.{opened, started, figures_of, going_of, distance_of, is_inside, end_of};

pub use adding::add_block;
use big::{Big, at_most, of_u64};
use positions::{NoPosition, distance, of_double};

// How a line ends, or why a record is no call: the log ended, a start closed it, a block before any start, a
// payload of another length, a float that is no position, a number that would leave its range.
#[derive(Clone, Copy)]
pub enum End {
    Open,
    Closed,
    Early,
    Payload,
    Float,
    Range,
}

impl From<NoPosition> for End {
    ghost from_gives = { λ no end. end ≡ end_of no };

    fn from(no: NoPosition) -> End {
        match no {
            NoPosition::Beyond => End::Range,
            NoPosition::Other => End::Float,
        }
    }
}

// The output frames N, the blocks B, the input sizes answered, the exact and the stored position and the
// bound of their distance, these three in units of 2^-192.
#[derive(Clone, Copy)]
pub struct Line {
    pub frames: u64,
    pub blocks: u64,
    pub inputs: u64,
    pub exactly: Big,
    pub stored: Big,
    pub most: Big,
}

// Two factors of a number.
#[derive(Clone, Copy)]
pub struct Factors {
    pub j: u32,
    pub k: u32,
}

// A line that begins at a position.
fn line_at(start: Big) -> Line
    ensures { figures_of result ≡ opened (held_in start) }
{
    Line {
        frames: 0,
        blocks: 0,
        inputs: 0,
        exactly: start,
        stored: start,
        most: of_u64(0),
    }
}

// The line of a construction or a reset that left this index. Ends at once with Float or Range.
pub fn start_line(index: f64) -> Result<Line, End>
    ensures { going_of result ≡ started index }
{
    let start = of_double(index)?;
    Ok(line_at(start))
}

// How far the stored position is from the exact one, in units of 2^-192 without a sign.
pub fn distance_of(l: Line) -> Big
    ensures { value_of result ≡ distance_of (figures_of l) }
{
    distance(l.exactly, l.stored)
}

// Whether the distance is at most the bound.
pub fn is_inside(l: Line) -> bool
    ensures { result ≡ is_inside (figures_of l) }
{
    at_most(distance_of(l), l.most)
}
