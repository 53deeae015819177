// What each line of the call script does, over the public calls alone: the record, the working area and
// the table that are kept, and the answer.
#![tactic(auto)]

mod answer;
mod leaves;
mod noted;
mod record;
mod said;
mod shown;
mod tables;

use answer::put_answer;
use noted::noted;
use record::{Change, Kept, left};
use said::{Head, Said, said_of};
use script::line::{Line, command_in, read_line};
use script::reader::Input;
use script::values::{Values, float_at};
use script::words::Command;
use sheet_words::Live;
use system::System;

// What is kept from line to line, the line and the log along the calls, and the input behind the line. The
// answer has `end` bytes; it has none once the input is over.
#[derive(Clone, Copy)]
pub struct Served {
    pub kept: Kept,
    pub live: Live,
    pub input: Input,
    pub end: usize,
}

// Before the first line.
pub fn begin() -> Served {
    Served {
        kept: record::nothing(),
        live: sheet_words::nothing(),
        input: script::reader::start(),
        end: 0,
    }
}

// What a command says that takes numbers alone. Those that put their answers themselves come here too, and what
// is said of them is not put.
fn told(command: Command, values: Values) -> Said {
    match command {
        Command::WLin => leaves::weights_lin(values),
        Command::WQuad => leaves::weights_quad(values),
        Command::WCubic => leaves::weights_cubic(values),
        Command::Near => leaves::near(values),
        Command::Cutoff => leaves::cutoff(values),
        Command::Cosine => said_of(wave::cosine(float_at(values, 0))),
        Command::Sine => said_of(wave::sine(float_at(values, 0))),
        _ => said::begun(Head::Bad),
    }
}

// Runs a command on the record.
fn run_record(command: Command, kept: Kept, values: Values) -> Change {
    match command {
        Command::Rec => record::rec(kept, values),
        Command::Steps => record::steps(kept, values),
        Command::Abs => record::abs(kept, values),
        Command::Rel => record::rel(kept, values),
        Command::Chunk => record::chunk(kept, values),
        Command::Q => left(kept, shown::questions(kept.state)),
        Command::QSteps => left(kept, shown::step_questions(kept.state)),
        _ => left(kept, told(command, values)),
    }
}

// Runs a command on what is kept, of which `work` and `table` hold the samples. The samples that it shows
// are at the front of `output`.
fn run(
    command: Command,
    kept: Kept,
    values: Values,
    input: &[f64],
    output: &mut [f64],
    work: &mut [f64],
    table: &mut [f64],
) -> Change {
    match command {
        Command::New => record::new(kept, record::made_poly(values), work),
        Command::NewSinc => record::new(kept, record::made_sinc(values), work),
        Command::SetArea => record::set_area(kept, values, input, work),
        Command::Area => left(kept, record::show_area(kept, output, work)),
        Command::Reset => record::reset(kept, work),
        Command::Block => record::block(kept, values, input, output, work, table),
        Command::Window => left(kept, tables::window(values, output)),
        Command::Sincs => tables::sincs(kept, values, output, table),
        Command::SetTable => tables::set_table(kept, values, input, output, table),
        Command::K => left(kept, leaves::kernel(values, input)),
        Command::SLin => left(
            kept,
            leaves::blend(asynchro_sinc::interp_lin, values, input),
        ),
        Command::SQuad => left(
            kept,
            leaves::blend(asynchro_sinc::interp_quad, values, input),
        ),
        Command::SCubic => left(
            kept,
            leaves::blend(asynchro_sinc::interp_cubic, values, input),
        ),
        _ => run_record(command, kept, values),
    }
}

// The answer to a line, at the start of the buffer. The commands on the pass log and on the sheet put theirs
// themselves, and nothing was run for them.
fn put(
    out: &mut [u8],
    command: Command,
    values: Values,
    bytes: &[u8],
    ends: &[f64],
    live: Live,
    said: &Said,
    area: &[f64],
) -> usize {
    match command {
        Command::LogPut => log_words::logput(out, values, bytes),
        Command::LogRead => log_words::logread(out, values, bytes),
        Command::Salvage => log_words::salvage(out, values, bytes),
        Command::Sheet => sheet_words::put_sheet(out, values, bytes, ends),
        Command::Line => sheet_words::put_line(out, live),
        Command::LiveLog => noted::put_log(out, live, bytes),
        _ => put_answer(out, said, area),
    }
}

// Runs the command of a line, and puts its answer. The ends of the logs of a line stand in `input`.
fn ran(
    command: Command,
    line: Line,
    served: Served,
    out: &mut [u8],
    input: &[f64],
    output: &mut [f64],
    work: &mut [f64],
    table: &mut [f64],
    bytes: &mut [u8],
) -> Served {
    let before = served.kept;
    let first = served.live;
    let values = line.values;
    let change = run(command, before, values, input, output, work, table);
    let live = noted(first, command, values, before, change, bytes);
    let end = put(
        out,
        command,
        values,
        bytes,
        input,
        live,
        &change.said,
        output,
    );
    Served {
        kept: change.kept,
        live,
        input: line.input,
        end,
    }
}

// A line that can't be read runs nothing, and neither does the input's end.
fn answered(
    line: Line,
    served: Served,
    out: &mut [u8],
    input: &[f64],
    output: &mut [f64],
    work: &mut [f64],
    table: &mut [f64],
    bytes: &mut [u8],
) -> Served {
    let end = match command_in(line) {
        Ok(Some(command)) => {
            return ran(
                command, line, served, out, input, output, work, table, bytes,
            );
        }
        Ok(None) => 0,
        Err(_) => put_answer(out, &said::begun(Head::Bad), output),
    };
    Served {
        input: line.input,
        end,
        ..served
    }
}

// Reads a line, runs it, and puts its answer at the start of `out`. `bytes` are those of the line, and
// behind them stands the log along the calls.
pub fn serve(
    sys: &mut System,
    before: Served,
    buf: &mut [u8],
    out: &mut [u8],
    input: &mut [f64],
    output: &mut [f64],
    work: &mut [f64],
    table: &mut [f64],
    bytes: &mut [u8],
) -> Served {
    let line = read_line(sys, before.input, buf, input, output, bytes);
    answered(line, before, out, input, output, work, table, bytes)
}
