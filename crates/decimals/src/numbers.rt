// Numbers as words on a command line: a decimal, a quotient or bits in hex, each rounded once.
ghost use Rattle.std.specs.Prelude.{◌≡◌, ◌^◌, ◌<◌};
ghost use Rattle.decimals.specs.Numbers.{digits_of, whole_of, counted, decimal_in, quotient_of, bits_in, number_of};

use crate::nearest::nearest;

fn power_of_ten(k: usize) -> u64
    requires { k < 20 }
    ensures { result ≡ 10 ^ k }
{
    let mut power: u64 = 1;
    for _i in 0..k {
        power *= 10;
    }
    power
}

// A word of up to 19 digits.
#[tactic(auto, unfolding(crate::specs::Numbers::digits_of))]
fn digits(word: &[u8]) -> Option<u64>
    ensures { result ≡ digits_of word.now }
{
    if word.len() > 19 {
        return None;
    }
    text::decimal_of(word)
}

fn whole(word: &[u8]) -> Option<f64>
    ensures { result ≡ whole_of word.now }
{
    let n = digits(word)?;
    Some(nearest(n, 1))
}

// How many of the digits before a point count: a lone 0 does not.
#[tactic(auto, unfolding(crate::specs::Numbers::counted))]
fn counting(before: &[u8]) -> usize
    ensures { result ≡ counted before.now }
{
    let n = before.len();
    if n != 1 {
        return n;
    }
    if before[0] == b'0' { 0 } else { 1 }
}

// Digits before and behind a point, up to 19 in all: their number over a power of ten.
fn decimal(before: &[u8], behind: &[u8]) -> Option<f64>
    ensures { result ≡ decimal_in before.now behind.now }
{
    let places = behind.len();
    if places > 19 {
        return None;
    }
    if counting(before) > 19 - places {
        return None;
    }
    let n = text::decimal_of(before)?;
    let k = text::decimal_of(behind)?;
    let ten = power_of_ten(places);
    Some(nearest(n * ten + k, ten))
}

// Two whole numbers of up to 19 digits each, the second not 0: the one over the other.
pub fn quotient_of(above: &[u8], below: &[u8]) -> Option<f64>
    ensures { result ≡ quotient_of above.now below.now }
{
    let n = digits(above)?;
    let k = digits(below)?;
    if k == 0 {
        return None;
    }
    Some(nearest(n, k))
}

// Sixteen hex digits.
#[tactic(auto, unfolding(crate::specs::Numbers::bits_in))]
fn bits(digits: &[u8]) -> Option<f64>
    ensures { result ≡ bits_in digits.now }
{
    let n = text::hex_of(digits)?;
    Some(text::of_bits(n))
}

// The double of a word: `x` and the bits; or digits with a point or a `/` among them; or digits.
pub fn number_of(word: &[u8]) -> Option<f64>
    ensures { result ≡ number_of word.now }
{
    if word.len() == 0 {
        return None;
    }
    if word[0] == b'x' {
        return bits(&word[1..]);
    }
    if let Some(point) = scan::find(word, b'.') {
        return decimal(&word[..point], &word[point + 1..]);
    }
    if let Some(bar) = scan::find(word, b'/') {
        return quotient_of(&word[..bar], &word[bar + 1..]);
    }
    whole(word)
}
