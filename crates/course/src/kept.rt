// Which frames of a block a pass writes.
use cut::KeptFrames;
use kinds::Kind;
use state::State;

// All frames of a block, as --raw writes them, and the index of the first.
fn whole_block(s: State) -> KeptFrames {
    let start = path::Moment {
        index: s.index,
        step: state::step_now(s),
    };
    let first = path::step_index(start, plan::t_ratio_increment(s));
    KeptFrames {
        from: 0,
        to: s.output,
        index: first.index,
    }
}

// The whole input frames from a frame's index to the frame itself: a sinc is summed from its index on, and its
// middle lies points/2 - 1 frames, and 1/factor of one, behind it.
fn ahead(kind: Kind) -> u64 {
    match kind {
        Kind::Polynomial(_) => 0,
        Kind::Sinc(points, _, _) => (points / 2).saturating_sub(1) as u64,
    }
}

// The frames of a block that are written. `ended` says that the input is over behind `total` frames.
pub fn kept_of(s: State, raw: bool, used: u64, ended: bool, total: u64) -> KeptFrames {
    if raw {
        return whole_block(s);
    }
    cut::kept(
        s,
        used.saturating_add(ahead(s.kind)),
        ended.then_some(total),
    )
}
