// The pass log as a program writes it: a record of each call, whole before the next call is made. That each
// function is safe and ends is proved. Each answers whether the record was written; where there is no pass
// log nothing is, and all is well.
#![tactic(auto)]

use log_calls::{put_block, put_setting, put_start};
use log_writer::Refused;
use printer::front_of;
use system::{Fd, System};

// Writes the record that was put at the front of the bytes.
fn is_written(sys: &mut System, fd: Fd, put: Result<usize, Refused>, record: &[u8]) -> bool {
    let Ok(n) = put else {
        return false;
    };
    let k = front_of(record, n);
    sys.write_all(fd, &record[..k])
}

// A construction, by the index that it leaves.
pub fn write_construction(sys: &mut System, log: Option<Fd>, index: f64) -> bool {
    let Some(fd) = log else {
        return true;
    };
    let mut record = [0u8; 71];
    let put = put_start(1, index, &mut record);
    is_written(sys, fd, put, &record)
}

// An accepted setting of the ratio, by its bits: `what` is 1 where it holds at once, 2 where it is ramped to.
pub fn write_setting(sys: &mut System, log: Option<Fd>, what: u64, ratio: u64) -> bool {
    let Some(fd) = log else {
        return true;
    };
    let mut record = [0u8; 71];
    let put = put_setting(what, ratio, &mut record);
    is_written(sys, fd, put, &record)
}

// An accepted block: the sizes that it used, its starting step, its increment and the index that it leaves.
pub fn write_block(
    sys: &mut System,
    log: Option<Fd>,
    output: usize,
    input: usize,
    t: f64,
    d: f64,
    index: f64,
) -> bool {
    let Some(fd) = log else {
        return true;
    };
    let mut record = [0u8; 71];
    let put = put_block(output, input, t, d, index, &mut record);
    is_written(sys, fd, put, &record)
}
