// The kernel of a degree at a run of places. The degree is chosen once for a run and not for each sample. Only
// our own crates call these functions.
#![tactic(auto)]

ghost use Rattle.std.specs.Prelude.{◌≡◌, ◌+◌, ◌<◌, ◌≤◌, length, get_or};
ghost use Rattle.std.specs.Float.{nan};
ghost use Rattle.asynchro_fast.specs.declared.PolynomialDegree.{PolynomialDegree};
ghost use Rattle.asynchro_fast.specs.Degrees.{points_of};
ghost use Rattle.kernel_runs.specs.Runs.{kernel_on, run_to, Runs};

use asynchro_fast::PolynomialDegree;

// One sample: the kernel on the samples from s on.
pub fn kernel_at(degree: PolynomialDegree, work: &[f64], s: usize, x: f64) -> f64
    requires { s + points_of degree ≤ length work.now }
    ensures { result ≡ kernel_on degree work.now s x }
{
    let e = s + asynchro_fast::nbr_points(degree);
    asynchro_fast::interp(degree, x, &work[s..e])
}

// A degree as a type: a run is compiled once for each, and the degree is not looked at for each sample.
trait Kernel {
    ghost degree: { PolynomialDegree };

    fn degree() -> PolynomialDegree
        ensures { result ≡ degree };
}

struct Nearest;

impl Kernel for Nearest {
    ghost degree = { PolynomialDegree.Nearest };

    fn degree() -> PolynomialDegree {
        PolynomialDegree::Nearest
    }
}

struct Linear;

impl Kernel for Linear {
    ghost degree = { PolynomialDegree.Linear };

    fn degree() -> PolynomialDegree {
        PolynomialDegree::Linear
    }
}

struct Cubic;

impl Kernel for Cubic {
    ghost degree = { PolynomialDegree.Cubic };

    fn degree() -> PolynomialDegree {
        PolynomialDegree::Cubic
    }
}

struct Quintic;

impl Kernel for Quintic {
    ghost degree = { PolynomialDegree.Quintic };

    fn degree() -> PolynomialDegree {
        PolynomialDegree::Quintic
    }
}

struct Septic;

impl Kernel for Septic {
    ghost degree = { PolynomialDegree.Septic };

    fn degree() -> PolynomialDegree {
        PolynomialDegree::Septic
    }
}

// The kernel of one degree at as many places as the output has room for.
fn run<K: Kernel>(work: &[f64], places: &[usize], fracs: &[f64], out: &mut [f64])
    requires { Runs K.degree work.now places.now fracs.now out.old }
    ensures { out.new ≡ run_to K.degree work.now places.now fracs.now (length out.old) }
{
    for k in 0..out.len() {
        out[k] = kernel_at(K::degree(), work, places[k], fracs[k]);
    }
}

// The kernel at as many places as the output has room for.
pub fn kernel_run(
    degree: PolynomialDegree,
    work: &[f64],
    places: &[usize],
    fracs: &[f64],
    out: &mut [f64],
)
    requires { Runs degree work.now places.now fracs.now out.old }
    ensures { out.new ≡ run_to degree work.now places.now fracs.now (length out.old) }
{
    match degree {
        PolynomialDegree::Nearest => run::<Nearest>(work, places, fracs, out),
        PolynomialDegree::Linear => run::<Linear>(work, places, fracs, out),
        PolynomialDegree::Cubic => run::<Cubic>(work, places, fracs, out),
        PolynomialDegree::Quintic => run::<Quintic>(work, places, fracs, out),
        PolynomialDegree::Septic => run::<Septic>(work, places, fracs, out),
    }
}
