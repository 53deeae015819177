// The frames of a block in all channels, frame after frame, each by its site. Only our own crates call these.
#![tactic(auto)]

ghost use Rattle.std.specs.Prelude.{◌≡◌, ◌+◌, ◌*◌, ◌<◌, ◌≤◌, length, set, true};
ghost use Rattle.kinds.specs.Kinds.{points_of, kind_holds, table_of};
ghost use Rattle.channel.specs.Mask.{where_on};
ghost use Rattle.path.specs.Turns.{Lies};
ghost use Rattle.frames.specs.Run.{value_at, ran_all};
ghost use Rattle.frames.specs.Turns.{wrote_all};

use kinds::Kind;
use path::{Moment, Site};

// A frame's value in one channel.
#[tactic(auto, unfolding(crate::specs::Run::value_at, crate::specs::Run::kernel_at, kernel_runs::specs::Runs::kernel_on))]
fn value(table: &[f64], work: &[f64], site: Site) -> f64
    requires { Lies site (length work.now) (length table.now) }
    ensures { result ≡ value_at table.now work.now site }
{
    match site {
        Site::Kernel(degree, Some(p)) => kernel_runs::kernel_at(degree, work, p.start, p.frac),
        Site::Kernel(_, None) => 0.0,
        Site::Grid(l, spots) => sinc_value::spots_value(l, table, work, spots),
    }
}

// A frame in one channel's share of the output; a switched-off channel's share stays.
fn write_channel(on: bool, share: &mut [f64], k: usize, table: &[f64], work: &[f64], site: Site)
    requires k_in_bounds { k < length share.old }
    requires lies { Lies site (length work.now) (length table.now) }
    ensures { share.new ≡ where_on on (set share.old k (value_at table.now work.now site)) share.old }
{
    if on {
        share[k] = value(table, work, site);
    }
}

// A frame in every switched-on channel, at place k of each share.
fn write_frame(
    table: &[f64],
    mask: u64,
    work: &[f64],
    stride: usize,
    site: Site,
    k: usize,
    out: &mut [f64],
    share: usize,
    channels: usize,
)
    requires channels_bound { channels ≤ 16 }
    requires stride_value { (channels * stride ≡ length work.now) × (channels * share ≡ length out.old) }
    requires k_lt_share { (k < share) × Lies site stride (length table.now) }
    ensures { out.new ≡ wrote_all table.now mask work.now stride site k share channels out.old }
{
    for c in 0..channels {
        let a = c * share;
        let b = c * stride;
        write_channel(
            channel::is_on(mask, c),
            &mut out[a..a + share],
            k,
            table,
            &work[b..b + stride],
            site,
        );
    }
}

// The frames of all channels, from place `at` of each share on. The index path is gone once.
pub fn run_all(
    kind: Kind,
    table: &[f64],
    needed: usize,
    mask: u64,
    work: &[f64],
    stride: usize,
    t: f64,
    d: f64,
    i: f64,
    n: usize,
    at: usize,
    out: &mut [f64],
    share: usize,
    channels: usize,
)
    requires kind_value { (kind_holds kind ≡ true) × (length table.now ≡ table_of kind) }
    requires needed_bound { (needed ≤ 65536) × (channels ≤ 16) }
    requires stride_value { (channels * stride ≡ length work.now) × (channels * share ≡ length out.old) }
    requires n_bound { (at + n ≤ share) × (2 * points_of kind + needed ≤ stride) }
    ensures { out.new ≡ ran_all kind table.now needed mask work.now stride t d i n at share channels out.old }
{
    let mut moment = Moment { index: i, step: t };
    for f in 0..n {
        moment = path::step_index(moment, d);
        let site = path::site_of(kind, needed, moment.index);
        write_frame(
            table,
            mask,
            work,
            stride,
            site,
            at + f,
            out,
            share,
            channels,
        );
    }
}
