// The passes: each a record, its settings, and its blocks.
use crate::account::Account;
use asynchro_fast::PolynomialDegree;
use error::Refusal;
use sizes::FixedAsync;
use state::State;
use system::System;

// A ramp to the one ratio of the first pass.
fn set_first(k: u64, a: Account) -> Account {
    if k != 0 {
        return a;
    }
    let s = a.state;
    let r = text::of_bits(0x3f7f_e01f_e01f_3b18);
    crate::account::set(a, asynchro::set_resample_ratio(s, r, true))
}

// Every ten blocks a ramp, up to 1.1 times the ratio and down again.
fn set_third(k: u64, a: Account) -> Account {
    if k % 10 != 0 {
        return a;
    }
    let s = a.state;
    if k / 10 % 2 == 0 {
        return crate::account::set(a, asynchro::set_resample_ratio_relative(s, 1.1, true));
    }
    crate::account::set(a, asynchro::set_resample_ratio_relative(s, 1.0, true))
}

// Every block a ratio within 10 millionths, with no ramp: clock steering.
fn set_fourth(k: u64, a: Account) -> Account {
    let s = a.state;
    let part = std::num::nearest_u64_to_f64(k % 11 * 5 % 11);
    let rel = 1.0 + part * 0.000001;
    crate::account::set(a, asynchro::set_resample_ratio_relative(s, rel, false))
}

// The blocks, before each of which the pass sets what it has to set there.
fn run<F: Fn(u64, Account) -> Account>(
    set: F,
    opened: Account,
    blocks: u64,
    input: &[f64],
    output: &mut [f64],
    work: &mut [f64],
) -> Account
    requires { F.IsAlwaysCallable set }
{
    let mut a = opened;
    for k in 0..blocks {
        a = crate::account::block(set(k, a), input, output, work);
    }
    a
}

// The blocks on the first n samples of the working area.
fn run_on<F: Fn(u64, Account) -> Account>(
    set: F,
    opened: Account,
    blocks: u64,
    input: &[f64],
    output: &mut [f64],
    work: &mut [f64],
    n: usize,
) -> Account
    requires { F.IsAlwaysCallable set }
{
    if n <= work.len() {
        return run(set, opened, blocks, input, output, &mut work[..n]);
    }
    opened
}

// A pass by its number, its record, its blocks and their settings.
fn pass<F: Fn(u64, Account) -> Account>(
    sys: &mut System,
    number: u64,
    made: Result<State, Refusal>,
    blocks: u64,
    set: F,
    input: &[f64],
    output: &mut [f64],
    work: &mut [f64],
)
    requires { F.IsAlwaysCallable set }
{
    if let Ok(s) = made {
        let n = lent::work_length(s);
        let opened = crate::account::opened(s);
        let a = run_on(set, opened, blocks, input, output, work, n);
        crate::report::print(sys, number, a);
    }
}

// The worst input that a search has found: one block with a ramp.
fn first() -> Result<State, Refusal> {
    let r = text::of_bits(0x3f70_1010_1010_0fd0);
    let m = text::of_bits(0x3fff_c03f_f584_0cbc);
    let degree = PolynomialDegree::Nearest;
    construction::new_poly(r, m, degree, 65536, 1, FixedAsync::Input)
}

// An ordinary conversion, 48,000 to 44,100 a second.
fn second() -> Result<State, Refusal> {
    let degree = PolynomialDegree::Linear;
    construction::new_poly(44100.0 / 48000.0, 1.1, degree, 1024, 1, FixedAsync::Output)
}

// Ramps up and down.
fn third() -> Result<State, Refusal> {
    let degree = PolynomialDegree::Cubic;
    construction::new_poly(48000.0 / 44100.0, 2.0, degree, 1024, 1, FixedAsync::Input)
}

// Clock steering.
fn fourth() -> Result<State, Refusal> {
    let degree = PolynomialDegree::Septic;
    construction::new_poly(160.0 / 147.0, 1.05, degree, 441, 1, FixedAsync::Output)
}

pub fn all(sys: &mut System, input: &[f64], output: &mut [f64], work: &mut [f64]) {
    pass(sys, 1, first(), 1, set_first, input, output, work);
    pass(sys, 2, second(), 200, |_, a| a, input, output, work);
    pass(sys, 3, third(), 100, set_third, input, output, work);
    pass(sys, 4, fourth(), 100, set_fourth, input, output, work);
}
