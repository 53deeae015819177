// Where the walk stands in the log, and how a stretch moves it on.
ghost use Rattle.std.specs.Prelude.{◌≡◌};
ghost use Rattle.log_parts.specs.Walk.{walk_after};

use log_salvage::Stretch;
use tally::plus;

// The bytes in front of `place`, counted from the log's start, are walked. Those of them from `from` on are
// skipped, and not listed or counted yet.
#[derive(Clone, Copy)]
pub struct Walk {
    pub from: u64,
    pub place: u64,
}

// The walk behind a stretch, if there is one. One that is skipped joins what is skipped in front of it.
pub fn after(w: Walk, s: Option<Stretch>) -> Walk
    ensures { result ≡ walk_after w s }
{
    match s {
        Some(Stretch::Skipped { length, .. }) => Walk {
            from: w.from,
            place: plus(w.place, length as u64),
        },
        Some(Stretch::Kept { length, .. }) => {
            let place = plus(w.place, length as u64);
            Walk { from: place, place }
        }
        None => w,
    }
}
