// What a line of the plan says.
ghost use Rattle.std.specs.Prelude.{◌≡◌, drop};
ghost use Rattle.schedule.specs.Entries.{
  name_of,
  named_of,
  fields_of,
  is_over,
  entry_of,
};

use crate::words::word_at;

// A change before a block: a ratio at once, a ratio by a ramp, or the mask from there on. Blank lines say
// nothing.
#[derive(Clone, Copy)]
pub enum Entry {
    At(u64, f64),
    Ramp(u64, f64),
    Mask(u64, u64),
    Blank,
}

// The first word of a line.
#[derive(Clone, Copy)]
enum Name {
    At,
    Ramp,
    Mask,
}

fn name_of(word: &[u8]) -> Option<Name>
    ensures { result ≡ name_of word.now }
{
    if check::same(word, b"at") {
        return Some(Name::At);
    }
    if check::same(word, b"ramp") {
        return Some(Name::Ramp);
    }
    if check::same(word, b"mask") {
        return Some(Name::Mask);
    }
    None
}

// What a name says with a block and a value.
fn named(name: Name, block: u64, value: &[u8]) -> Option<Entry>
    ensures { result ≡ named_of name block value.now }
{
    match name {
        Name::At => Some(Entry::At(block, decimals::number_of(value)?)),
        Name::Ramp => Some(Entry::Ramp(block, decimals::number_of(value)?)),
        Name::Mask => Some(Entry::Mask(block, text::decimal_of(value)?)),
    }
}

// What three words say.
fn fields_of(name: &[u8], block: &[u8], value: &[u8]) -> Option<Entry>
    ensures { result ≡ fields_of name.now block.now value.now }
{
    let name = name_of(name)?;
    let block = text::decimal_of(block)?;
    named(name, block, value)
}

// Whether nothing stands from the place `at` on, or a `#`.
fn is_over(line: &[u8], at: usize) -> bool
    ensures { result ≡ is_over (drop at line.now) }
{
    if at >= line.len() {
        return true;
    }
    line[at] == 35
}

// What a line says: three words and no more, or nothing; none where it is bad.
pub fn entry_of(line: &[u8]) -> Option<Entry>
    ensures { result ≡ entry_of line.now }
{
    let first = word_at(line, 0);
    if is_over(line, first.from) {
        return Some(Entry::Blank);
    }
    let second = word_at(line, first.to);
    let third = word_at(line, second.to);
    let fourth = word_at(line, third.to);
    if fourth.from < line.len() {
        return None;
    }
    fields_of(
        &line[first.from..first.to],
        &line[second.from..second.to],
        &line[third.from..third.to],
    )
}
