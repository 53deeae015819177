// Sizes: numbers of frames that are worked out of doubles, in the source's operation order.
// Only our own crates call these.
#![tactic(auto, unfolding(crate::specs::Sizes::needed_input, crate::specs::Sizes::needed_output, crate::specs::Sizes::max_input, crate::specs::Sizes::max_output))]

ghost use Rattle.std.specs.Prelude.{◌≡◌, ◌≤◌, true};
ghost use Rattle.exact.specs.Doubles.{count};
ghost use Rattle.sizes.specs.Bounds.{is_ratio};
ghost use Rattle.sizes.specs.Sizes.{
  size_of,
  size_of_count,
  start_of,
  needed_input,
  needed_output,
  max_input,
  max_output,
  delay_of,
  size_at_least,
};

// Which side of a block has a fixed number of frames.
#[derive(Clone, Copy, Debug, PartialEq, Eq)]
pub enum FixedAsync {
    Input,
    Output,
}

// A count as a double.
pub fn float_of(n: usize) -> f64
    ensures { result ≡ count n }
{
    std::num::nearest_u64_to_f64(n as u64)
}

// A size: a number of frames, or none where that is more than 65,536.
pub fn size_of_count(n: usize) -> Option<usize>
    ensures { result ≡ size_of_count n }
{
    (n <= 65536).then_some(n)
}

// Truncated, a negative one 0; a NaN and what is beyond 65,536 is too large and never cast.
pub fn size_of(x: f64) -> Option<usize>
    ensures { result ≡ size_of x }
{
    if x < 131072.0 {
        if x < 0.0 {
            return Some(0);
        }
        let n = std::num::truncating_f64_to_u64(x);
        return size_of_count(n as usize);
    }
    None
}

pub fn start_index(l: usize) -> f64
    ensures { result ≡ start_of l }
{
    -(float_of(l) / 2.0)
}

// The needed input; t1 and t2 are the steps of the current and the target ratio.
pub fn calculate_input_size(
    fixed: FixedAsync,
    l: usize,
    chunk: usize,
    index: f64,
    t1: f64,
    t2: f64,
) -> Option<usize>
    ensures { result ≡ needed_input fixed l chunk index t1 t2 }
{
    match fixed {
        FixedAsync::Input => size_of_count(chunk),
        FixedAsync::Output => {
            let c = float_of(chunk);
            let points = float_of(l);
            let avg = 0.5 * (t1 + t2);
            let over = 0.5 * (t2 - t1);
            size_of(whole::ceil(index + c * avg + over + points))
        }
    }
}

// The needed output.
pub fn calculate_output_size(
    fixed: FixedAsync,
    l: usize,
    chunk: usize,
    index: f64,
    t1: f64,
    t2: f64,
) -> Option<usize>
    requires { l ≤ 256 }
    ensures { result ≡ needed_output fixed l chunk index t1 t2 }
{
    match fixed {
        FixedAsync::Output => size_of_count(chunk),
        FixedAsync::Input => {
            let c = float_of(chunk);
            let room = float_of(l + 1);
            let avg = 0.5 * (t1 + t2);
            let over = 0.5 * (t2 - t1);
            size_of(whole::floor((c - room - index - over) / avg))
        }
    }
}

pub fn calculate_max_input_size(
    fixed: FixedAsync,
    l: usize,
    chunk0: usize,
    r0: f64,
    m: f64,
) -> Option<usize>
    ensures { result ≡ max_input fixed l chunk0 r0 m }
{
    match fixed {
        FixedAsync::Input => size_of_count(chunk0),
        FixedAsync::Output => {
            let c = float_of(chunk0);
            let half = float_of(l / 2);
            size_of(whole::ceil(c / r0 * m) + 2.0 + half)
        }
    }
}

pub fn calculate_max_output_size(fixed: FixedAsync, chunk0: usize, r0: f64, m: f64) -> Option<usize>
    ensures { result ≡ max_output fixed chunk0 r0 m }
{
    match fixed {
        FixedAsync::Output => size_of_count(chunk0),
        FixedAsync::Input => {
            let c = float_of(chunk0);
            size_of(c * r0 * m + 10.0)
        }
    }
}

// The output delay: within these bounds it is a whole number of frames that a cast gives.
pub fn delay_of(l: usize, r1: f64) -> usize
    requires { (1 ≤ l) × (l ≤ 256) × (is_ratio r1 ≡ true) }
    ensures { result ≡ delay_of l r1 }
{
    let points = float_of(l);
    std::num::truncating_f64_to_u64(points * r1 / 2.0) as usize
}

// A size that is n or more.
pub fn size_holds(size: Option<usize>, n: usize) -> bool
    ensures { result ≡ size_at_least size n }
{
    size.is_some_and(|k| n <= k)
}
