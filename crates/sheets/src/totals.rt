// The total with a line.
ghost use Rattle.sheets.specs.Steps.{SummedBy, CountedBy, PlacedBy};

use crate::Total;
use big::Big;
use lines::Line;
use positions::sum;

// The counts of a total with a line's; its positions are those before it.
fn counted(t: Total, l: Line) -> Option<Total>
    ensures { CountedBy t l result }
{
    let frames = t.frames.checked_add(l.frames)?;
    let blocks = t.blocks.checked_add(l.blocks)?;
    Some(Total {
        frames,
        blocks,
        ..t
    })
}

// The total with other positions.
fn placed(t: Total, exactly: Option<Big>, stored: Option<Big>) -> Option<Total>
    ensures { PlacedBy t exactly stored result }
{
    let exactly = exactly?;
    let stored = stored?;
    Some(Total {
        exactly,
        stored,
        ..t
    })
}

// The total with a line added, each sum within its range.
pub fn with_line(t: Total, l: Line) -> Option<Total>
    ensures { SummedBy t l result }
{
    let next = counted(t, l)?;
    placed(next, sum(t.exactly, l.exactly), sum(t.stored, l.stored))
}
