// The words of a line, parted by spaces and tabs; a CR counts as one of these.
ghost use Rattle.std.specs.Prelude.{◌≡◌, ◌+◌, ◌≤◌, length, drop};
ghost use Rattle.schedule.specs.Words.{is_blank, is_kind, run_in};
ghost use Rattle.schedule.specs.Places.{goes_on, WordAt};

// Where a word stands: from its first byte to behind its last.
#[derive(Clone, Copy)]
pub(crate) struct Span {
    pub(crate) from: usize,
    pub(crate) to: usize,
}

// A space, a tab, or the CR before the end of a line.
fn is_blank(byte: u8) -> bool
    ensures { result ≡ is_blank byte }
{
    (byte == 32) | (byte == 9) | (byte == 13)
}

// Whether a byte is blank, or whether it is not.
fn is_kind(byte: u8, blank: bool) -> bool
    ensures { result ≡ is_kind blank byte }
{
    if blank {
        is_blank(byte)
    } else {
        !is_blank(byte)
    }
}

// Whether a byte of the kind stands at the place `at`.
fn goes_on(line: &[u8], at: usize, blank: bool) -> bool
    ensures { result ≡ goes_on blank line.now at }
{
    if at >= line.len() {
        return false;
    }
    is_kind(line[at], blank)
}

// The place behind the run of bytes of a kind that begins at `from`.
fn run_end(line: &[u8], from: usize, blank: bool) -> usize
    requires { from ≤ length line.now }
    ensures place { result ≡ from + run_in blank (drop from line.now) }
    ensures within { (from ≤ result) × (result ≤ length line.now) }
{
    let mut at = from;
    while goes_on(line, at, blank) {
        at += 1;
    }
    at
}

// The first word from the place `at` on. Only this crate calls this function.
pub(crate) fn word_at(line: &[u8], at: usize) -> Span
    requires { at ≤ length line.now }
    ensures { WordAt line.now at result.from result.to }
{
    let from = run_end(line, at, true);
    let to = run_end(line, from, false);
    Span { from, to }
}
