// Construction of a ratio state. Document 01: "The ratio state", "Refusal numbers".
#![tactic(auto)]

ghost use Rattle.std.specs.Prelude.{◌≡◌};
ghost use Rattle.error.specs.Refusals.{said_result};
ghost use Rattle.construction.specs.Construction.{fresh_state, first_lengths, construct};

use asynchro_fast::PolynomialDegree;
use asynchro_sinc::SincInterpolationType;
use error::Refusal;
use kinds::Kind;
use sizes::FixedAsync;
use state::{Measured, State};

// The record before its sizes are worked out.
fn fresh_state(
    r: f64,
    m: f64,
    kind: Kind,
    chunk: usize,
    channels: usize,
    fixed: FixedAsync,
) -> State
    ensures { result ≡ fresh_state r m kind chunk channels fixed }
{
    let step = steps::step_of(r);
    State {
        channels,
        chunk,
        chunk0: chunk,
        input: 0,
        output: 0,
        fill: 0,
        index: sizes::start_index(kinds::nbr_points(kind)),
        original: r,
        current: r,
        target: r,
        now: step,
        then: step,
        m,
        kind,
        fixed,
    }
}

// Construction's last rungs: 6, and the fill.
fn first_lengths(measured: Measured) -> Result<State, Refusal>
    ensures { said_result result ≡ first_lengths measured.state }
{
    if !measured.maxima_hold() {
        return Err(Refusal::SizeTooLarge);
    }
    let sized = measured.update_lengths()?;
    Ok(State {
        fill: sized.input,
        ..sized
    })
}

// Construction of a record of either kind: refusals 11, 1, 2, 3, 5, 7, 6. It is lent no area.
pub fn new_kind(
    r: f64,
    m: f64,
    kind: Kind,
    chunk: usize,
    channels: usize,
    fixed: FixedAsync,
) -> Result<State, Refusal>
    ensures { said_result result ≡ construct r m kind chunk channels fixed }
{
    if !kinds::kind_holds(kind) {
        return Err(Refusal::Argument);
    }
    if !bounds::above_zero(r) {
        return Err(Refusal::InvalidRatio(r));
    }
    if !bounds::at_least_one(m) {
        return Err(Refusal::InvalidRelativeRatio(m));
    }
    if chunk < 1 {
        return Err(Refusal::InvalidChunkSize);
    }
    if !bounds::is_ratio(r) {
        return Err(Refusal::RatioBeyondPort(r));
    }
    if !bounds::is_channels(channels) {
        return Err(Refusal::Channels);
    }
    let fresh = fresh_state(r, m, kind, chunk, channels, fixed);
    first_lengths(Measured::of(fresh))
}

// A polynomial of this degree: never refused 11.
pub fn new_poly(
    r: f64,
    m: f64,
    degree: PolynomialDegree,
    chunk: usize,
    channels: usize,
    fixed: FixedAsync,
) -> Result<State, Refusal>
    ensures { said_result result ≡ construct r m (Kind.Polynomial degree) chunk channels fixed }
{
    new_kind(r, m, Kind::Polynomial(degree), chunk, channels, fixed)
}

// A sinc of so many points, with this factor and blend.
pub fn new_sinc(
    r: f64,
    m: f64,
    points: usize,
    factor: usize,
    blend: SincInterpolationType,
    chunk: usize,
    channels: usize,
    fixed: FixedAsync,
) -> Result<State, Refusal>
    ensures { said_result result ≡ construct r m (Kind.Sinc points factor blend) chunk channels fixed }
{
    let kind = Kind::Sinc(points, factor, blend);
    new_kind(r, m, kind, chunk, channels, fixed)
}
