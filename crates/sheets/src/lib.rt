// The sheet: the total over all lines, and the open line. A line is handed out when it ends.
#![tactic(auto)]

mod records;
mod totals;

ghost use Rattle.std.specs.Prelude.{◌≡◌};
ghost use Rattle.sheets.specs.Sheet.{empty, nothing, sums_of, page_of};

use big::{Big, of_u64};
use lines::{End, Line};
pub use records::{end_log, take_record};

// The sums of the lines' counts and positions.
#[derive(Clone, Copy)]
pub struct Total {
    pub frames: u64,
    pub blocks: u64,
    pub exactly: Big,
    pub stored: Big,
}

// The sum of the lines that have ended, that with the open line added, and the line where one is open.
#[derive(Clone, Copy)]
pub struct Sheet {
    pub closed: Total,
    pub total: Total,
    pub line: Option<Line>,
}

// How a line has ended, or the word of a bad record where no line is open.
#[derive(Clone, Copy)]
pub struct Told {
    pub line: Option<Line>,
    pub end: End,
}

// The sheet after a record, what is told of it, if anything is, and whether the log is read on: a closed line is
// told and the log read on, so the one does not say the other.
#[derive(Clone, Copy)]
pub struct Turn {
    pub sheet: Sheet,
    pub told: Option<Told>,
    pub reads: bool,
}

// No lines yet.
fn no_total() -> Total
    ensures { sums_of result ≡ nothing }
{
    Total {
        frames: 0,
        blocks: 0,
        exactly: of_u64(0),
        stored: of_u64(0),
    }
}

// The sheet before any log.
pub fn new_sheet() -> Sheet
    ensures { page_of result ≡ empty }
{
    Sheet {
        closed: no_total(),
        total: no_total(),
        line: None,
    }
}
