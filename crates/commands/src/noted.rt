// What the line and the log along the calls make of a line that was answered.
use crate::record::{Change, Kept};
use crate::said::Head;
use printer::front_of;
use script::bytes::MOST;
use script::values::{Values, flag_at, float_at, number_at};
use script::words::Command;
use sheet_words::Live;
use state::State;

// A ratio that was set: `step` where it holds at once, `ramp` where it is ramped to.
fn ratio_set(live: Live, step: u64, ramp: u64, values: Values, log: &mut [u8]) -> Live {
    let bits = text::bits_of(float_at(values, 0));
    let what = if flag_at(values, 1) { ramp } else { step };
    sheet_words::setting(live, what, bits, log)
}

// An accepted block of the record s.
fn block_run(live: Live, s: State, index: f64, log: &mut [u8]) -> Live {
    let t = state::step_now(s);
    let d = plan::t_ratio_increment(s);
    sheet_words::block(live, s.output, s.input, t, d, index, log)
}

// An accepted call, by the record before it and the index that it left. Another record is put in by no call.
fn accepted(
    live: Live,
    command: Command,
    values: Values,
    before: State,
    index: f64,
    log: &mut [u8],
) -> Live {
    match command {
        Command::New => sheet_words::construction(index, log),
        Command::NewSinc => sheet_words::construction(index, log),
        Command::Reset => sheet_words::reset(live, index, log),
        Command::Abs => ratio_set(live, 1, 2, values, log),
        Command::Rel => ratio_set(live, 3, 4, values, log),
        Command::Chunk => sheet_words::setting(live, 5, number_at(values, 0), log),
        Command::Block => block_run(live, before, index, log),
        Command::Rec => sheet_words::lost(live),
        Command::Steps => sheet_words::lost(live),
        _ => live,
    }
}

// After a line: refused calls and lines that can't be read leave all as it is. The log stands behind the
// bytes of the line.
pub fn noted(
    live: Live,
    command: Command,
    values: Values,
    before: Kept,
    change: Change,
    bytes: &mut [u8],
) -> Live {
    let kept = change.kept;
    let state = kept.state;
    let said = change.said;
    let head = said.head;
    let first = before.state;
    let n = front_of(bytes, MOST);
    match head {
        Head::Ok => accepted(live, command, values, first, state.index, &mut bytes[n..]),
        _ => live,
    }
}

// The log, in digits.
pub fn put_log(out: &mut [u8], live: Live, bytes: &[u8]) -> usize {
    let n = front_of(bytes, MOST);
    sheet_words::put_log(out, live, &bytes[n..])
}
