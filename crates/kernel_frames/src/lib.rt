// The frames of a block in all channels: those of a kernel 32 at a time, first their places, then channel after
// channel. Only our own crates call these functions.
#![tactic(auto)]

ghost use Rattle.std.specs.Prelude.{◌≡◌, ◌+◌, ◌*◌, ◌<◌, ◌≤◌, length, true};
ghost use Rattle.std.proofs.Math.Seq.{paste};
ghost use Rattle.kinds.specs.Kinds.{points_of, kind_holds, table_of};
ghost use Rattle.channel.specs.Mask.{where_on};
ghost use Rattle.kernel_runs.specs.Runs.{run_to, FitTo};
ghost use Rattle.path.specs.Path.{path_at};
ghost use Rattle.frames.specs.Run.{ran_all};
ghost use Rattle.kernel_frames.specs.Turns.{filled_all};

use asynchro_fast::PolynomialDegree;
use kinds::Kind;
use path::Moment;

// A run of frames in one channel's share of the output, from place k on; a switched-off channel's share stays.
fn fill_channel(
    on: bool,
    share: &mut [f64],
    k: usize,
    n: usize,
    degree: PolynomialDegree,
    work: &[f64],
    places: &[usize],
    fracs: &[f64],
)
    requires n_in_bounds { k + n ≤ length share.old }
    requires n_in_bounds_2 { (n ≤ length places.now) × ((n ≤ length fracs.now) × FitTo degree (length work.now) places.now n) }
    ensures { share.new ≡ where_on on (paste share.old k (run_to degree work.now places.now fracs.now n) n) share.old }
{
    if on {
        kernel_runs::kernel_run(degree, work, places, fracs, &mut share[k..k + n]);
    }
}

// A run of frames in every switched-on channel.
fn fill_all(
    degree: PolynomialDegree,
    mask: u64,
    work: &[f64],
    stride: usize,
    places: &[usize],
    fracs: &[f64],
    k: usize,
    n: usize,
    out: &mut [f64],
    share: usize,
    channels: usize,
)
    requires channels_bound { channels ≤ 16 }
    requires stride_value { (channels * stride ≡ length work.now) × (channels * share ≡ length out.old) }
    requires n_bound { k + n ≤ share }
    requires n_in_bounds { (n ≤ length places.now) × ((n ≤ length fracs.now) × FitTo degree stride places.now n) }
    ensures { out.new ≡ filled_all degree mask work.now stride places.now fracs.now k n share channels out.old }
{
    for c in 0..channels {
        let a = c * share;
        let b = c * stride;
        fill_channel(
            channel::is_on(mask, c),
            &mut out[a..a + share],
            k,
            n,
            degree,
            &work[b..b + stride],
            places,
            fracs,
        );
    }
}

// The n frames after a moment, from place `at` of each share on: first the places of all of them, then channel
// after channel. Where one is out of reach, frame after frame.
fn run_part(
    degree: PolynomialDegree,
    table: &[f64],
    needed: usize,
    mask: u64,
    work: &[f64],
    stride: usize,
    from: Moment,
    d: f64,
    n: usize,
    at: usize,
    out: &mut [f64],
    share: usize,
    channels: usize,
    places: &mut [usize],
    fracs: &mut [f64],
) -> Moment
    requires table_len { length table.now ≡ 0 }
    requires needed_bound { (needed ≤ 65536) × (channels ≤ 16) }
    requires stride_value { (channels * stride ≡ length work.now) × (channels * share ≡ length out.old) }
    requires n_bound { (at + n ≤ share) × (2 * points_of (Kind.Polynomial degree) + needed ≤ stride) }
    requires n_in_bounds { (n ≤ length places.old) × (n ≤ length fracs.old) }
    ensures after { result ≡ path_at from.step d from.index n }
    ensures ran { out.new ≡ ran_all (Kind.Polynomial degree) table.now needed mask work.now stride from.step d from.index n at share channels out.old }
{
    let shift = path::shift_of(degree);
    let last = path::last_of(degree, needed);
    let walked = path::walk(shift, last, from, d, places, fracs, n);
    if walked.reach {
        fill_all(
            degree, mask, work, stride, places, fracs, at, n, out, share, channels,
        );
        return walked.after;
    }
    let kind = Kind::Polynomial(degree);
    frames::run_all(
        kind, table, needed, mask, work, stride, from.step, d, from.index, n, at, out, share,
        channels,
    );
    walked.after
}

// The frames of a kernel, 32 at a time.
fn run_kernel(
    degree: PolynomialDegree,
    table: &[f64],
    needed: usize,
    mask: u64,
    work: &[f64],
    stride: usize,
    t: f64,
    d: f64,
    i: f64,
    n: usize,
    at: usize,
    out: &mut [f64],
    share: usize,
    channels: usize,
    places: &mut [usize],
    fracs: &mut [f64],
)
    requires table_len { length table.now ≡ 0 }
    requires needed_bound { (needed ≤ 65536) × (channels ≤ 16) }
    requires stride_value { (channels * stride ≡ length work.now) × (channels * share ≡ length out.old) }
    requires n_bound { (at + n ≤ share) × (2 * points_of (Kind.Polynomial degree) + needed ≤ stride) }
    requires in_bounds { (32 ≤ length places.old) × (32 ≤ length fracs.old) }
    ensures { out.new ≡ ran_all (Kind.Polynomial degree) table.now needed mask work.now stride t d i n at share channels out.old }
{
    let mut moment = Moment { index: i, step: t };
    let mut f = 0;
    while f < n {
        let m = (n - f).min(32);
        moment = run_part(
            degree,
            table,
            needed,
            mask,
            work,
            stride,
            moment,
            d,
            m,
            at + f,
            out,
            share,
            channels,
            places,
            fracs,
        );
        f = f + m;
    }
}

// The frames of all channels, from place `at` of each share on.
pub fn run_all(
    kind: Kind,
    table: &[f64],
    needed: usize,
    mask: u64,
    work: &[f64],
    stride: usize,
    t: f64,
    d: f64,
    i: f64,
    n: usize,
    at: usize,
    out: &mut [f64],
    share: usize,
    channels: usize,
)
    requires kind_value { (kind_holds kind ≡ true) × (length table.now ≡ table_of kind) }
    requires needed_bound { (needed ≤ 65536) × (channels ≤ 16) }
    requires stride_value { (channels * stride ≡ length work.now) × (channels * share ≡ length out.old) }
    requires n_bound { (at + n ≤ share) × (2 * points_of kind + needed ≤ stride) }
    ensures { out.new ≡ ran_all kind table.now needed mask work.now stride t d i n at share channels out.old }
{
    match kind {
        Kind::Polynomial(degree) => {
            let mut places = [0; 32];
            let mut fracs = [0.0; 32];
            run_kernel(
                degree,
                table,
                needed,
                mask,
                work,
                stride,
                t,
                d,
                i,
                n,
                at,
                out,
                share,
                channels,
                &mut places,
                &mut fracs,
            );
        }
        Kind::Sinc(_, _, _) => frames::run_all(
            kind, table, needed, mask, work, stride, t, d, i, n, at, out, share, channels,
        ),
    }
}
