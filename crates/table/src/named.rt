// Windows by their names.
ghost use Rattle.std.specs.Prelude.{◌≡◌, length};
ghost use Rattle.printer.specs.Put.{put_in, place_after};
ghost use Rattle.table.specs.Names.{long_name, short_name, IsName, Names, Tells};

use printer::put_bytes;
use windows::WindowFunction;

fn long_name(window: WindowFunction) -> &'static [u8]
    ensures { result.now ≡ long_name window }
{
    match window {
        WindowFunction::Blackman => b"blackman",
        WindowFunction::Blackman2 => b"blackman2",
        WindowFunction::BlackmanHarris => b"blackman-harris",
        WindowFunction::BlackmanHarris2 => b"blackman-harris2",
        WindowFunction::Hann => b"hann",
        WindowFunction::Hann2 => b"hann2",
    }
}

fn short_name(window: WindowFunction) -> &'static [u8]
    ensures { result.now ≡ short_name window }
{
    match window {
        WindowFunction::Blackman => b"b",
        WindowFunction::Blackman2 => b"b2",
        WindowFunction::BlackmanHarris => b"bh",
        WindowFunction::BlackmanHarris2 => b"bh2",
        WindowFunction::Hann => b"h",
        WindowFunction::Hann2 => b"h2",
    }
}

// Whether a word is the long or the short name of a window.
fn is_name(word: &[u8], window: WindowFunction) -> bool
    ensures { Tells result (IsName word.now window) }
{
    (word == long_name(window)) | (word == short_name(window))
}

// The window of a name, if the word is one.
pub fn window_named(word: &[u8]) -> Option<WindowFunction>
    ensures { Names word.now result }
{
    if is_name(word, WindowFunction::Hann) {
        return Some(WindowFunction::Hann);
    }
    if is_name(word, WindowFunction::Hann2) {
        return Some(WindowFunction::Hann2);
    }
    if is_name(word, WindowFunction::Blackman) {
        return Some(WindowFunction::Blackman);
    }
    if is_name(word, WindowFunction::Blackman2) {
        return Some(WindowFunction::Blackman2);
    }
    if is_name(word, WindowFunction::BlackmanHarris) {
        return Some(WindowFunction::BlackmanHarris);
    }
    if is_name(word, WindowFunction::BlackmanHarris2) {
        return Some(WindowFunction::BlackmanHarris2);
    }
    None
}

// Puts the long name of a window into the line.
pub fn put_name(line: &mut [u8], at: usize, window: WindowFunction) -> usize
    ensures place { result ≡ place_after (length line.old) at (length (long_name window)) }
    ensures put { line.new ≡ put_in line.old at (long_name window) }
{
    put_bytes(line, at, long_name(window))
}
