// The parameters of a sinc interpolation, and the setters that chain: each hands back the record with
// one field changed.
#![tactic(auto)]

ghost use Rattle.std.specs.Prelude.{◌≡◌};
ghost use Rattle.sinc_parameters.specs.Parameters.{new_of, default_of, with_sinc_len, with_window, with_cutoff, with_factor, with_interpolation};

use asynchro_sinc::SincInterpolationType;
use windows::WindowFunction;

// The relative cutoff frequency. The source has an `Option<f32>` here; document 01 has an enum that carries
// an f32.
#[derive(Clone, Copy, Debug, PartialEq)]
pub enum Cutoff {
    // Left to `windows::calculate_cutoff`, by the length and the window.
    Auto,
    // This one.
    At(f32),
}

// What a sinc interpolation is made from.
#[derive(Clone, Copy, Debug, PartialEq)]
pub struct SincInterpolationParameters {
    // The number of points of the windowed sinc.
    pub sinc_len: usize,
    // The cutoff, relative to half of the lower sample rate.
    pub f_cutoff: Cutoff,
    // The number of grid points to each sample.
    pub oversampling_factor: usize,
    // How the value between grid points is found.
    pub interpolation: SincInterpolationType,
    // The window that shapes the sinc.
    pub window: WindowFunction,
}

impl SincInterpolationParameters {
    // The length and the window as given; an automatic cutoff, an oversampling factor of 128 and cubic
    // interpolation.
    pub fn new(sinc_len: usize, window: WindowFunction) -> Self
        ensures { result ≡ new_of sinc_len window }
    {
        SincInterpolationParameters {
            sinc_len,
            f_cutoff: Cutoff::Auto,
            oversampling_factor: 128,
            interpolation: SincInterpolationType::Cubic,
            window,
        }
    }

    // Another length.
    pub fn sinc_len(mut self, sinc_len: usize) -> Self
        ensures { result ≡ with_sinc_len self sinc_len }
    {
        self.sinc_len = sinc_len;
        self
    }

    // Another window.
    pub fn window(mut self, window: WindowFunction) -> Self
        ensures { result ≡ with_window self window }
    {
        self.window = window;
        self
    }

    // A cutoff in place of the automatic choice.
    pub fn f_cutoff(mut self, f_cutoff: f32) -> Self
        ensures { result ≡ with_cutoff self f_cutoff }
    {
        self.f_cutoff = Cutoff::At(f_cutoff);
        self
    }

    // Another oversampling factor.
    pub fn oversampling_factor(mut self, oversampling_factor: usize) -> Self
        ensures { result ≡ with_factor self oversampling_factor }
    {
        self.oversampling_factor = oversampling_factor;
        self
    }

    // Another way between grid points.
    pub fn interpolation(mut self, interpolation: SincInterpolationType) -> Self
        ensures { result ≡ with_interpolation self interpolation }
    {
        self.interpolation = interpolation;
        self
    }
}

// As `new` has them, at 256 points under the squared Blackman-Harris window.
impl Default for SincInterpolationParameters {
    ghost is_default = { λ p. p ≡ default_of };

    fn default() -> Self
        ensures { result ≡ default_of }
    {
        Self::new(256, WindowFunction::BlackmanHarris2)
    }
}
