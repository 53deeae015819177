// Which frames of a block belong to the input. A frame's position is the input frames used before the
// block plus the frame's index; a pass is cut to the frames from -2^-20 up to, and not including, the
// number of input frames less 2^-20. No position is summed up: the limits are taken to the block instead,
// where they are doubles without rounding.
#![tactic(auto)]

ghost use Rattle.std.specs.Prelude.{◌≡◌, suc, is_some, unwrap_or};
ghost use Rattle.path.specs.Path.{path_at};
ghost use Rattle.cut.specs.Cut.{limit_of, leading, kept_of};

use path::Moment;
use state::State;

// The frames `from` up to, and not including, `to` are kept. `index` is that of the frame `from`; where the
// block has no such frame, the one that its next frame would have.
#[derive(Clone, Copy, Debug)]
pub struct KeptFrames {
    pub from: usize,
    pub to: usize,
    pub index: f64,
}

// How many frames come before the first one that is not below a limit, and that one's index.
#[derive(Clone, Copy)]
struct Lead {
    count: usize,
    index: f64,
}

// The index of the position edge - 2^-20. It goes up to 2^18 from the block: past that lies no index of a block
// that is not refused.
fn limit(used: u64, edge: u64) -> f64
    ensures { result ≡ limit_of used edge }
{
    if edge <= used {
        return -0.00000095367431640625 - std::num::nearest_u64_to_f64((used - edge).min(262144));
    }
    std::num::nearest_u64_to_f64((edge - used).min(262144)) - 0.00000095367431640625
}

// Of the first n frames, those before the first one whose index is not below `most`.
fn leading(t: f64, d: f64, i: f64, most: f64, n: usize) -> Lead
    ensures count { result.count ≡ leading t d i most 0 n }
    ensures index { result.index ≡ (path_at t d i (suc result.count)).index }
{
    let mut at = path::step_index(Moment { index: i, step: t }, d);
    for k in 0..n {
        if !(at.index < most) {
            return Lead {
                count: k,
                index: at.index,
            };
        }
        at = path::step_index(at, d);
    }
    Lead {
        count: n,
        index: at.index,
    }
}

// What is kept of the block of `s`, with so many input frames used before it. `total` is the number of
// input frames, once the input has ended.
pub fn kept(s: State, used: u64, total: Option<u64>) -> KeptFrames
    ensures { result ≡ kept_of s used (is_some total) (unwrap_or total 0) }
{
    let t = state::step_now(s);
    let d = plan::t_ratio_increment(s);
    let front = leading(t, d, s.index, limit(used, 0), s.output);
    let Some(n) = total else {
        return KeptFrames {
            from: front.count,
            to: s.output,
            index: front.index,
        };
    };
    let whole = leading(t, d, s.index, limit(used, n), s.output);
    KeptFrames {
        from: front.count,
        to: whole.count,
        index: front.index,
    }
}
