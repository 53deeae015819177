// A tone by its recurrence: the next sample of two.
ghost use Rattle.std.specs.Prelude.{◌≡◌};
ghost use Rattle.exact.specs.Doubles.{◌*f◌, ◌-f◌};

// k is twice the cosine of the tone's angle a sample.
pub fn tone_next(k: f64, y: f64, before: f64) -> f64
    ensures { result ≡ k *f y -f before }
{
    k * y - before
}
