// The refusals of document 01, each with the floats that it carries. A call that can be refused answers a
// `Result` with a `Refusal` in its `Err`.
#![tactic(auto)]

ghost use Rattle.std.specs.Prelude.{◌≡◌, [], ◌∷◌};
ghost use Rattle.error.specs.Refusals.{number_of, values_of, padded};

// Document 01, "Refusal numbers".
#[derive(Clone, Copy, Debug, PartialEq)]
pub enum Refusal {
    InvalidRatio(f64),
    InvalidRelativeRatio(f64),
    InvalidChunkSize,
    RatioOutOfBounds(f64, f64, f64),
    RatioBeyondPort(f64),
    SizeTooLarge,
    Channels,
    BufferShape,
    Reach,
    StateRecord,
    Argument,
}

// The floats that a refusal carries: the first `count` of `values`, the others 0.0. The library has no heap,
// so that the list is an array with its length.
#[derive(Clone, Copy, Debug, PartialEq)]
pub struct Carried {
    pub count: usize,
    pub values: [f64; 3],
}

// The refusal's number in document 01.
pub fn number(r: Refusal) -> u64
    ensures { result ≡ number_of r }
{
    match r {
        Refusal::InvalidRatio(_) => 1,
        Refusal::InvalidRelativeRatio(_) => 2,
        Refusal::InvalidChunkSize => 3,
        Refusal::RatioOutOfBounds(_, _, _) => 4,
        Refusal::RatioBeyondPort(_) => 5,
        Refusal::SizeTooLarge => 6,
        Refusal::Channels => 7,
        Refusal::BufferShape => 8,
        Refusal::Reach => 9,
        Refusal::StateRecord => 10,
        Refusal::Argument => 11,
    }
}

fn none() -> Carried
    ensures { result ≡ padded [] }
{
    Carried {
        count: 0,
        values: [0.0, 0.0, 0.0],
    }
}

fn one(x: f64) -> Carried
    ensures { result ≡ padded (x ∷ []) }
{
    Carried {
        count: 1,
        values: [x, 0.0, 0.0],
    }
}

// The floats that the refusal carries, in document 01's order.
pub fn values(r: Refusal) -> Carried
    ensures { result ≡ padded (values_of r) }
{
    match r {
        Refusal::InvalidRatio(x) => one(x),
        Refusal::InvalidRelativeRatio(x) => one(x),
        Refusal::RatioOutOfBounds(provided, original, m) => Carried {
            count: 3,
            values: [provided, original, m],
        },
        Refusal::RatioBeyondPort(x) => one(x),
        Refusal::InvalidChunkSize => none(),
        Refusal::SizeTooLarge => none(),
        Refusal::Channels => none(),
        Refusal::BufferShape => none(),
        Refusal::Reach => none(),
        Refusal::StateRecord => none(),
        Refusal::Argument => none(),
    }
}
