// The records of a pass's calls: what the pass log keeps of each.
#![tactic(auto)]

ghost use Rattle.std.specs.Prelude.{◌≡◌, length};
ghost use Rattle.log_writer.specs.Writer.{said_put, put_said, put_area};
ghost use Rattle.log_calls.specs.Payloads.{start_payload, increment, block_payload, setting_payload};

use log_writer::{Refused, put_record};
use samples::{put_little, put_sample};

fn start_payload(index: f64) -> [u8; 8]
    ensures { result ≡ start_payload index }
{
    let mut payload = [0u8; 8];
    put_sample(&mut payload, 0, index);
    payload
}

// A block of no frames has no increment.
fn increment_of(output: usize, d: f64) -> f64
    ensures { result ≡ increment output d }
{
    if output == 0 {
        return 0.0;
    }
    d
}

fn block_payload(output: usize, input: usize, t: f64, d: f64, index: f64) -> [u8; 32]
    ensures { result ≡ block_payload output input t d index }
{
    let mut payload = [0u8; 32];
    put_little(&mut payload, 0, output as u64, 4);
    put_little(&mut payload, 4, input as u64, 4);
    put_sample(&mut payload, 8, t);
    put_sample(&mut payload, 16, increment_of(output, d));
    put_sample(&mut payload, 24, index);
    payload
}

fn setting_payload(what: u64, value: u64) -> [u8; 9]
    ensures { result ≡ setting_payload what value }
{
    let mut payload = [0u8; 9];
    put_little(&mut payload, 0, what, 1);
    put_little(&mut payload, 1, value, 8);
    payload
}

// The record of a construction (kind 1) or a reset (kind 4) at the front of `out`, with the index that it
// leaves.
pub fn put_start(kind: u64, index: f64, out: &mut [u8]) -> Result<usize, Refused>
    ensures answer { said_put result ≡ put_said kind (start_payload index) (length out.old) }
    ensures area { out.new ≡ put_area kind (start_payload index) out.old }
{
    let payload = start_payload(index);
    put_record(kind, &payload, out)
}

// The record of an accepted block: its sizes, of which the lowest four bytes are kept (the sizes of a block
// are below 2^32), its starting step, its increment (0 where it has no frames) and the index that it
// leaves.
pub fn put_block(
    output: usize,
    input: usize,
    t: f64,
    d: f64,
    index: f64,
    out: &mut [u8],
) -> Result<usize, Refused>
    ensures answer { said_put result ≡ put_said 3 (block_payload output input t d index) (length out.old) }
    ensures area { out.new ≡ put_area 3 (block_payload output input t d index) out.old }
{
    let payload = block_payload(output, input, t, d, index);
    put_record(3, &payload, out)
}

// The record of a setting. `what` is 1 for a ratio, 2 for a ratio by a ramp, 3 and 4 for the same as factors
// of the original ratio, whose value is the ratio's or the factor's bits; 5 for a chunk, whose value is its
// frames.
pub fn put_setting(what: u64, value: u64, out: &mut [u8]) -> Result<usize, Refused>
    ensures answer { said_put result ≡ put_said 2 (setting_payload what value) (length out.old) }
    ensures area { out.new ≡ put_area 2 (setting_payload what value) out.old }
{
    let payload = setting_payload(what, value);
    put_record(2, &payload, out)
}
