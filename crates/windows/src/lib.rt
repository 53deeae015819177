// The window kinds, and the cutoff that suits a window at a number of points.
#![tactic(auto)]

ghost use Rattle.std.specs.Prelude.{◌≡◌, ◌&&◌, [], nat_le, slice_index_or};
ghost use Rattle.exact.specs.Doubles.{count};
ghost use Rattle.error.specs.Refusals.{said_answer};
ghost use Rattle.windows.specs.Cutoff.{row_of, cutoff_rows, cutoff_by, cutoff_said};

use error::Refusal;

// The windows that a sinc can be shaped by. A 2 stands for the square of the window before it.
#[derive(Clone, Copy, Debug, PartialEq, Eq)]
pub enum WindowFunction {
    Blackman,
    Blackman2,
    BlackmanHarris,
    BlackmanHarris2,
    Hann,
    Hann2,
}

// The constants k1, k2, k3 of the cutoff, a row for each window in the order of `WindowFunction`.
const CUTOFF: [[f64; 3]; 6] = [
    [6.159598046201173, 18.926415097606878, 653.4247430458968],
    [9.506235102129398, 79.13120634953742, 1502.2316160588925],
    [8.041443677716476, 55.9506779343387, 898.0287985384213],
    [13.745202940783823, 121.73532586374934, 5964.163279612051],
    [3.3481080887677166, 10.106519434875038, 78.96345249024414],
    [5.38751148378734, 29.69451915489501, 184.82117462266237],
];

// A window's constants.
fn constants(window: WindowFunction) -> [f64; 3]
    ensures { result ≡ slice_index_or cutoff_rows (row_of window) [] }
{
    CUTOFF[window as usize]
}

// The formula of document 01, for the number of points n as a double.
fn cutoff_by(k: [f64; 3], n: f64) -> f64
    ensures { result ≡ cutoff_by k n }
{
    1.0 / (k[0] / n + k[1] / (n * n) + k[2] / (n * n * n) + 1.0)
}

// Document 01: 1 to 65,536 points.
fn in_range(npoints: usize) -> bool
    ensures { result ≡ (nat_le 1 npoints && nat_le npoints 65536) }
{
    (1 <= npoints) & (npoints <= 65536)
}

// A cutoff frequency, relative to half the sample rate, that suits a sinc of `npoints` points under
// the window. Takes 1 to 65,536 points.
pub fn calculate_cutoff(npoints: usize, window: WindowFunction) -> Result<f64, Refusal>
    ensures { said_answer result ≡ cutoff_said npoints window }
{
    if !in_range(npoints) {
        return Err(Refusal::Argument);
    }
    let k = constants(window);
    let n = std::num::nearest_u64_to_f64(npoints as u64);
    Ok(cutoff_by(k, n))
}
