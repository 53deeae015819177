// The words for a degree, a side, a window and a blend, and the words for them in the log.
use asynchro_fast::PolynomialDegree;
use asynchro_sinc::SincInterpolationType;
use sizes::FixedAsync;
use windows::WindowFunction;

pub fn degree_of(word: &[u8]) -> Option<PolynomialDegree> {
    match word {
        b"nearest" => Some(PolynomialDegree::Nearest),
        b"linear" => Some(PolynomialDegree::Linear),
        b"cubic" => Some(PolynomialDegree::Cubic),
        b"quintic" => Some(PolynomialDegree::Quintic),
        b"septic" => Some(PolynomialDegree::Septic),
        _ => None,
    }
}

// In the log a degree is seven bytes wide.
pub fn degree_text(degree: PolynomialDegree) -> &'static str {
    match degree {
        PolynomialDegree::Nearest => "nearest",
        PolynomialDegree::Linear => "linear ",
        PolynomialDegree::Cubic => "cubic  ",
        PolynomialDegree::Quintic => "quintic",
        PolynomialDegree::Septic => "septic ",
    }
}

pub fn side_of(word: &[u8]) -> Option<FixedAsync> {
    match word {
        b"in" => Some(FixedAsync::Input),
        b"out" => Some(FixedAsync::Output),
        _ => None,
    }
}

pub fn window_of(word: &[u8]) -> Option<WindowFunction> {
    match word {
        b"hann" | b"h" => Some(WindowFunction::Hann),
        b"hann2" | b"h2" => Some(WindowFunction::Hann2),
        b"blackman" | b"b" => Some(WindowFunction::Blackman),
        b"blackman2" | b"b2" => Some(WindowFunction::Blackman2),
        b"blackman-harris" | b"bh" => Some(WindowFunction::BlackmanHarris),
        b"blackman-harris2" | b"bh2" => Some(WindowFunction::BlackmanHarris2),
        _ => None,
    }
}

pub fn window_text(window: WindowFunction) -> &'static str {
    match window {
        WindowFunction::Hann => "hann",
        WindowFunction::Hann2 => "hann2",
        WindowFunction::Blackman => "blackman",
        WindowFunction::Blackman2 => "blackman2",
        WindowFunction::BlackmanHarris => "blackman-harris",
        WindowFunction::BlackmanHarris2 => "blackman-harris2",
    }
}

pub fn blend_of(word: &[u8]) -> Option<SincInterpolationType> {
    match word {
        b"nearest" => Some(SincInterpolationType::Nearest),
        b"linear" => Some(SincInterpolationType::Linear),
        b"quadratic" => Some(SincInterpolationType::Quadratic),
        b"cubic" => Some(SincInterpolationType::Cubic),
        _ => None,
    }
}

pub fn blend_text(blend: SincInterpolationType) -> &'static str {
    match blend {
        SincInterpolationType::Nearest => "nearest",
        SincInterpolationType::Linear => "linear",
        SincInterpolationType::Quadratic => "quadratic",
        SincInterpolationType::Cubic => "cubic",
    }
}
