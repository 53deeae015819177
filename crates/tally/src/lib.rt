// What a pass has used and made so far, and the bound on its drift. A sum that passes 2^64 - 1 stays there.
#![tactic(auto)]

ghost use Rattle.std.specs.Prelude.{◌≡◌, ◌+◌, ◌-◌};
ghost use Rattle.tally.specs.Tally.{capped, ramp_of, none_yet, Counted, bound_of};

// Accepted blocks (B), the input frames that they answered, how many of those were the input's own, their
// output frames (N), how many of those were written and how many cut before the input and behind it, and
// the sum of n*(n+1) over the blocks with a ramp, n being a block's output frames.
#[derive(Clone, Copy)]
pub struct Counts {
    pub blocks: u64,
    pub used: u64,
    pub given: u64,
    pub made: u64,
    pub written: u64,
    pub before: u64,
    pub behind: u64,
    pub ramps: u64,
}

// An accepted block: its two sizes, the frames given to it, the frames from..to of it that are written,
// and whether its increment is not 0.
#[derive(Clone, Copy)]
pub struct Block {
    pub input: usize,
    pub output: usize,
    pub given: usize,
    pub from: usize,
    pub to: usize,
    pub ramp: bool,
}

pub fn plus(a: u64, b: u64) -> u64
    ensures { result ≡ capped (a + b) }
{
    a.saturating_add(b)
}

// n*(n+1) of a block with a ramp. No block has more than 65,536 frames.
fn ramp_of(n: u64, ramp: bool) -> u64
    ensures { result ≡ ramp_of n ramp }
{
    if !ramp {
        return 0;
    }
    if n > 65536 { u64::MAX } else { n * (n + 1) }
}

pub fn none_yet() -> Counts
    ensures { result ≡ none_yet }
{
    Counts {
        blocks: 0,
        used: 0,
        given: 0,
        made: 0,
        written: 0,
        before: 0,
        behind: 0,
        ramps: 0,
    }
}

// One accepted block more.
pub fn counted(c: Counts, b: Block) -> Counts
    ensures { Counted c b result }
{
    let output = b.output as u64;
    let from = b.from as u64;
    let to = b.to as u64;
    Counts {
        blocks: c.blocks.saturating_add(1),
        used: c.used.saturating_add(b.input as u64),
        given: c.given.saturating_add(b.given as u64),
        made: c.made.saturating_add(output),
        written: c.written.saturating_add(to.saturating_sub(from)),
        before: c.before.saturating_add(from),
        behind: c.behind.saturating_add(output.saturating_sub(to)),
        ramps: c.ramps.saturating_add(ramp_of(output, b.ramp)),
    }
}

// The bound of demand 3 in units of 2^-46: (N+B)/2^37, plus n*(n+1)/2^46 for each block with a ramp.
pub fn bound(c: Counts) -> u64
    ensures { result ≡ bound_of c }
{
    let n = c.made.saturating_add(c.blocks);
    n.saturating_mul(512).saturating_add(c.ramps)
}
