// The step of a ratio, and the test of one that is stored (document 02, R-2).
#![tactic(auto)]

ghost use Rattle.std.specs.Prelude.{◌≡◌};
ghost use Rattle.steps.specs.Steps.{step_of, is_step};

// The step of an original, current or target ratio: the only place that divides 1 by one.
pub fn step_of(r: f64) -> f64
    ensures { result ≡ step_of r }
{
    1.0 / r
}

// x has the bits of r's step; a NaN never has.
pub fn is_step(x: f64, r: f64) -> bool
    ensures { result ≡ is_step x r }
{
    let fresh = step_of(r);
    if (x != x) | (fresh != fresh) {
        return false;
    }
    f64::to_bits(x) == f64::to_bits(fresh)
}
