// Numbers as words of digits: byte by byte, however many zeros lead, and of a whole word.
ghost use Rattle.std.specs.Prelude.{◌≡◌, ◌+◌, ◌<◌, min};
ghost use Rattle.text.specs.Words.{no_digits, step_run, decimal_done, hex_done, decimal_of, hex_of, run_of};

use crate::digits::digit_of;

// A run of digits: how many there are, where 17 stands for more than 16, and their number. What a word has
// come to is none where a byte is no digit, or the number is above 2^64 - 1.
#[derive(Clone, Copy)]
pub struct Run {
    pub count: usize,
    pub number: u64,
}

pub fn no_digits() -> Option<Run>
    ensures { result ≡ no_digits }
{
    Some(Run {
        count: 0,
        number: 0,
    })
}

fn one_more(count: usize) -> usize
    ensures { result ≡ min (count + 1) 17 }
{
    if count < 16 { count + 1 } else { 17 }
}

// One byte more of a run in a base.
fn step(base: u64, run: Option<Run>, byte: u8) -> Option<Run>
    requires { 0 < base }
    ensures { result ≡ step_run base run byte }
{
    let Run { count, number } = run?;
    let d = digit_of(byte);
    if d >= base {
        return None;
    }
    if number > (u64::MAX - d) / base {
        return None;
    }
    Some(Run {
        count: one_more(count),
        number: number * base + d,
    })
}

pub fn decimal_step(run: Option<Run>, byte: u8) -> Option<Run>
    ensures { result ≡ step_run 10 run byte }
{
    step(10, run, byte)
}

pub fn hex_step(run: Option<Run>, byte: u8) -> Option<Run>
    ensures { result ≡ step_run 16 run byte }
{
    step(16, run, byte)
}

// A decimal number has one digit or more.
pub fn decimal_done(run: Option<Run>) -> Option<u64>
    ensures { result ≡ decimal_done run }
{
    let Run { count, number } = run?;
    (count > 0).then_some(number)
}

// A bit pattern has 16 digits.
pub fn hex_done(run: Option<Run>) -> Option<u64>
    ensures { result ≡ hex_done run }
{
    let Run { count, number } = run?;
    (count == 16).then_some(number)
}

// What a whole word has come to in a base.
fn run_of(base: u64, word: &[u8]) -> Option<Run>
    requires { 0 < base }
    ensures { result ≡ run_of base word.now }
{
    let mut run = no_digits();
    for byte in word {
        run = step(base, run, *byte);
    }
    run
}

// The number of a word of decimal digits.
pub fn decimal_of(word: &[u8]) -> Option<u64>
    ensures { result ≡ decimal_of word.now }
{
    decimal_done(run_of(10, word))
}

// The number of a word of 16 hex digits.
pub fn hex_of(word: &[u8]) -> Option<u64>
    ensures { result ≡ hex_of word.now }
{
    hex_done(run_of(16, word))
}
