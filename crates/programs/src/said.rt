// What is told on standard error.
use system::System;

pub fn say(sys: &mut System, text: &[u8]) {
    sys.write_all(system::ERROR, text);
}

// A number, with its noun for one and for any other number.
pub fn say_count(sys: &mut System, n: u64, one: &[u8], many: &[u8]) {
    sys.print_decimal(system::ERROR, n);
    say(sys, if n == 1 { one } else { many });
}
