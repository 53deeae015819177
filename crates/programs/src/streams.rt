// Standard streams that are closed.
use system::System;

// Fills the lowest descriptor that is closed, if it is a standard stream; whether it was one.
fn fill_one(sys: &mut System) -> bool {
    matches!(sys.stand_in(), Ok(Some(_)))
}

// A standard stream that is closed must not become a file of ours: what is opened next has a descriptor
// above 2. Such an input is empty, writing to such an output fails, and such a standard error is nowhere.
pub fn fill_low(sys: &mut System) {
    for _ in 0..3 {
        if !fill_one(sys) {
            break;
        }
    }
}
