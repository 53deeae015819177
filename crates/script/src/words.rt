// The words of the call script: which commands there are, and what each takes.
use crate::bytes::bytes_done;
use crate::reader::Word;

#[derive(Clone, Copy)]
pub enum Command {
    New,
    NewSinc,
    Rec,
    SetArea,
    SetTable,
    Area,
    Abs,
    Rel,
    Chunk,
    Reset,
    Block,
    Q,
    Steps,
    QSteps,
    K,
    SLin,
    SQuad,
    SCubic,
    WLin,
    WQuad,
    WCubic,
    Near,
    Cutoff,
    Cosine,
    Sine,
    Window,
    Sincs,
    LogPut,
    LogRead,
    Salvage,
    Sheet,
    Line,
    LiveLog,
}

// What a word behind a command has to be.
#[derive(Clone, Copy, PartialEq, Eq)]
pub enum Takes {
    // The 16 digits of a float.
    Float,
    Whole,
    // L, which is 1, 2, 4, 6 or 8.
    Length,
    // `in` or `out`.
    Side,
    // `0` or `1`.
    Flag,
    // A number of grid points, 1 to 4.
    Grid,
    Window,
    Area,
    // The output of a block, an area that is kept apart.
    Output,
    Blend,
    // L, or the `s` of a sinc and a colon.
    Kind,
    // An area that may be as long as two.
    Table,
    // A whole number and a colon.
    Before,
    Bytes,
    // Bytes in one word or more, one behind the other.
    Logs,
}

pub fn command_of(name: &[u8]) -> Option<Command> {
    Some(match name {
        b"new" => Command::New,
        b"newsinc" => Command::NewSinc,
        b"rec" => Command::Rec,
        b"setarea" => Command::SetArea,
        b"settable" => Command::SetTable,
        b"area" => Command::Area,
        b"abs" => Command::Abs,
        b"rel" => Command::Rel,
        b"chunk" => Command::Chunk,
        b"reset" => Command::Reset,
        b"block" => Command::Block,
        b"q" => Command::Q,
        b"steps" => Command::Steps,
        b"qsteps" => Command::QSteps,
        b"k" => Command::K,
        b"slin" => Command::SLin,
        b"squad" => Command::SQuad,
        b"scubic" => Command::SCubic,
        b"wlin" => Command::WLin,
        b"wquad" => Command::WQuad,
        b"wcubic" => Command::WCubic,
        b"near" => Command::Near,
        b"cutoff" => Command::Cutoff,
        b"cosine" => Command::Cosine,
        b"sine" => Command::Sine,
        b"window" => Command::Window,
        b"sincs" => Command::Sincs,
        b"logput" => Command::LogPut,
        b"logread" => Command::LogRead,
        b"salvage" => Command::Salvage,
        b"sheet" => Command::Sheet,
        b"line" => Command::Line,
        b"livelog" => Command::LiveLog,
        _ => return None,
    })
}

// rec L in|out channels chunk construction-chunk original current target m index fill needed-in needed-out
const REC: [Takes; 13] = [
    Takes::Kind,
    Takes::Side,
    Takes::Whole,
    Takes::Whole,
    Takes::Whole,
    Takes::Float,
    Takes::Float,
    Takes::Float,
    Takes::Float,
    Takes::Float,
    Takes::Whole,
    Takes::Whole,
    Takes::Whole,
];

// The same of a sinc: behind its `s` stand its points, factor and blend.
const REC_SINC: [Takes; 16] = [
    Takes::Kind,
    Takes::Before,
    Takes::Before,
    Takes::Blend,
    Takes::Side,
    Takes::Whole,
    Takes::Whole,
    Takes::Whole,
    Takes::Float,
    Takes::Float,
    Takes::Float,
    Takes::Float,
    Takes::Float,
    Takes::Whole,
    Takes::Whole,
    Takes::Whole,
];

// new r m L chunk channels in|out
const NEW: [Takes; 6] = [
    Takes::Float,
    Takes::Float,
    Takes::Length,
    Takes::Whole,
    Takes::Whole,
    Takes::Side,
];

// newsinc r m points factor blend chunk channels in|out
const NEW_SINC: [Takes; 8] = [
    Takes::Float,
    Takes::Float,
    Takes::Whole,
    Takes::Whole,
    Takes::Blend,
    Takes::Whole,
    Takes::Whole,
    Takes::Side,
];

// The words behind a command; `sinc` where the `s` of one was read.
pub fn takes_of(command: Command, sinc: bool) -> &'static [Takes] {
    match command {
        Command::New => &NEW,
        Command::NewSinc => &NEW_SINC,
        Command::Rec if sinc => &REC_SINC,
        Command::Rec => &REC,
        Command::SetArea => &[Takes::Area],
        Command::SetTable => &[Takes::Table],
        // abs r 0|1, rel r 0|1
        Command::Abs | Command::Rel => &[Takes::Float, Takes::Flag],
        Command::Chunk => &[Takes::Whole],
        // steps now then
        Command::Steps => &[Takes::Float, Takes::Float],
        // block count mask IN OUT
        Command::Block => &[Takes::Whole, Takes::Whole, Takes::Area, Takes::Output],
        // k L x AREA
        Command::K => &[Takes::Length, Takes::Float, Takes::Area],
        // slin x AREA, squad x AREA, scubic x AREA
        Command::SLin | Command::SQuad | Command::SCubic => &[Takes::Float, Takes::Area],
        Command::WLin | Command::WQuad | Command::WCubic => &[Takes::Float],
        // near n t factor
        Command::Near => &[Takes::Grid, Takes::Float, Takes::Whole],
        // cutoff n window, window n window
        Command::Cutoff | Command::Window => &[Takes::Whole, Takes::Window],
        Command::Cosine | Command::Sine => &[Takes::Float],
        // sincs points factor cutoff window
        Command::Sincs => &[Takes::Whole, Takes::Whole, Takes::Float, Takes::Window],
        // logput kind BYTES room
        Command::LogPut => &[Takes::Whole, Takes::Bytes, Takes::Whole],
        // logread at BYTES
        Command::LogRead => &[Takes::Whole, Takes::Bytes],
        Command::Salvage => &[Takes::Bytes],
        // sheet LOG LOG ..
        Command::Sheet => &[Takes::Logs],
        _ => &[],
    }
}

// The number of a word that has a name: `in` and `out`, `0` and `1`, the windows by their places in the source,
// and the blends by their grid points.
fn side_of(name: &[u8]) -> Option<u64> {
    match name {
        b"in" => Some(0),
        b"out" => Some(1),
        _ => None,
    }
}

fn flag_of(name: &[u8]) -> Option<u64> {
    match name {
        b"0" => Some(0),
        b"1" => Some(1),
        _ => None,
    }
}

fn window_of(name: &[u8]) -> Option<u64> {
    match name {
        b"b" => Some(0),
        b"b2" => Some(1),
        b"bh" => Some(2),
        b"bh2" => Some(3),
        b"h" => Some(4),
        b"h2" => Some(5),
        _ => None,
    }
}

fn blend_of(name: &[u8]) -> Option<u64> {
    match name {
        b"n" => Some(1),
        b"l" => Some(2),
        b"q" => Some(3),
        b"c" => Some(4),
        _ => None,
    }
}

fn length_of(word: Word) -> Option<u64> {
    text::decimal_done(word.whole).filter(|n| matches!(*n, 1 | 2 | 4 | 6 | 8))
}

fn grid_of(word: Word) -> Option<u64> {
    text::decimal_done(word.whole).filter(|n| matches!(*n, 1..=4))
}

// The samples of an area, none of which went on in others.
fn samples_in(word: Word) -> Option<u64> {
    let more = text::area_done(word.area)?;
    match word.first {
        0 => Some(more),
        first if more == 0 => Some(first as u64),
        _ => None,
    }
}

// The samples of a table, which may have gone on in others.
fn table_in(word: Word) -> Option<u64> {
    let more = text::area_done(word.area)?;
    more.checked_add(word.first as u64)
}

fn has_colon(word: Word) -> bool {
    word.input.byte == b':'
}

// Whether a word in the place of L is the `s` of a sinc, behind which a colon stands.
pub fn begins_sinc(takes: Option<Takes>, word: Word) -> bool {
    let name = word.name;
    takes == Some(Takes::Kind) && has_colon(word) && matches!(name.text(), b"s")
}

// The number of a word before a colon; of the `s` of a sinc 0.
fn value_before(takes: Takes, word: Word) -> Option<u64> {
    match takes {
        Takes::Kind if begins_sinc(Some(takes), word) => Some(0),
        Takes::Before => text::decimal_done(word.whole),
        _ => None,
    }
}

// The number of a word by what it has to be: of an area how many samples it has, of bytes how many there
// are with those of the words before it.
pub fn value_of(takes: Option<Takes>, word: Word) -> Option<u64> {
    let takes = takes?;
    let name = word.name;
    if has_colon(word) {
        return value_before(takes, word);
    }
    match takes {
        Takes::Float => text::hex_done(word.bits),
        Takes::Whole => text::decimal_done(word.whole),
        Takes::Length | Takes::Kind => length_of(word),
        Takes::Grid => grid_of(word),
        Takes::Side => side_of(name.text()),
        Takes::Flag => flag_of(name.text()),
        Takes::Window => window_of(name.text()),
        Takes::Blend => blend_of(name.text()),
        Takes::Area | Takes::Output => samples_in(word),
        Takes::Table => table_in(word),
        Takes::Bytes | Takes::Logs => bytes_done(word.bytes),
        Takes::Before => None,
    }
}
