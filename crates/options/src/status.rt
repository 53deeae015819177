// The status of a run, in its file.
use crate::clashes::is_status_taken;
use crate::named::open_to_write;
use crate::options::Options;
use system::System;

// Writes the status and a line feed into the file that --status names, if one is named and it is no
// file of the pass.
pub fn write_status(sys: &mut System, o: &Options, status: u64) {
    let Some(place) = o.status else {
        return;
    };
    programs::fill_low(sys);
    if is_status_taken(sys, o) {
        return;
    }
    if let Some(opened) = open_to_write(sys, place) {
        programs::put_status(sys, Some(opened.fd), status);
    }
}
