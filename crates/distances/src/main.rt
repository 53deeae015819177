// Demand 3, measured: runs passes through the public calls, on silence, and prints for each the exact and
// the stored position, their distance and its bound, as whole numbers of 2^-192. The first pass is the one
// whose distance comes nearest to the bound of all that a search has found. The numbers that it must print
// were worked out from document 01 by a program in another language. Every function here is proved safe;
// the figures are those of `lines`, whose contracts say which numbers come out.
#![tactic(auto)]

mod account;
mod passes;
mod report;

use system::System;

fn main(rt: HostRuntime) {
    let mut system = System::new(rt);
    let sys = &mut system;
    let input = [0.0; 65536];
    let mut output = [0.0; 65536];
    let mut work = [0.0; 65552];
    passes::all(sys, &input, &mut output, &mut work);
}
