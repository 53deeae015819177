// So many blocks of one record, for counting what a block costs: tests/cost runs this program under a
// counter. On standard input stand the record's L, or 0 and a sinc's points, factor and blend (1 to 4), then
// the channels, the chunk and the blocks: `8 0 0 0 2 1024 5` or `0 64 128 4 2 1024 5`. The ratio is 0.9, the
// relative maximum 1.1, and the output side is fixed. It prints the sizes of the next block and the sum of
// the last one's output, and on standard error that a call was refused. Every function here is proved safe.
#![tactic(auto)]

mod numbers;

use error::Refusal;
use printer::front_of;
use script::values::{Values, count_at, kind_in, number_at};
use sizes::FixedAsync;
use state::State;
use system::{ERROR, OUTPUT, System};
use table_sum::TableSum;

// The record behind the blocks so far, and whether all were accepted: no Result, since a refused block leaves
// its record and the next one runs.
#[derive(Clone, Copy)]
struct Turn {
    state: State,
    good: bool,
}

// A fixed signal of 101 values, inside -0.5 to 0.5.
fn sample(k: usize) -> f64 {
    std::num::nearest_u64_to_f64((k % 101 * 37 % 101) as u64) / 101.0 - 0.5
}

// The first n samples of an area, or as many as there are.
fn fill(area: &mut [f64], n: usize) {
    let end = front_of(area, n);
    for (k, x) in area[..end].iter_mut().enumerate() {
        *x = sample(k);
    }
}

// A mask with every channel of a record, which has up to 16.
fn all_of(channels: usize) -> u64 {
    if channels > 16 {
        return 0;
    }
    65535 >> (16 - channels)
}

fn block(t: Turn, table: &[f64], input: &[f64], output: &mut [f64], work: &mut [f64]) -> Turn {
    let s = t.state;
    let mask = all_of(s.channels);
    let o = process::process_into_buffer(s, s.input, mask, table, input, output, work);
    Turn {
        state: o.state,
        good: t.good & o.answer.is_ok(),
    }
}

fn run(
    first: State,
    blocks: u64,
    table: &[f64],
    input: &[f64],
    output: &mut [f64],
    work: &mut [f64],
) -> Turn {
    let mut t = Turn {
        state: first,
        good: true,
    };
    for _ in 0..blocks {
        t = block(t, table, input, output, work);
    }
    t
}

fn tell(sys: &mut System, input: u64, output: u64, sum: TableSum) {
    sys.print_decimal(OUTPUT, input);
    sys.write_all(OUTPUT, b" ");
    sys.print_decimal(OUTPUT, output);
    sys.write_all(OUTPUT, b" ");
    sys.print_hex(OUTPUT, sum.first, 16);
    sys.print_hex(OUTPUT, sum.second, 16);
    sys.write_all(OUTPUT, b"\n");
}

// The blocks, then the sizes of the next one and the sum of the output.
fn run_and_tell(
    sys: &mut System,
    s: State,
    blocks: u64,
    table: &[f64],
    input: &[f64],
    output: &mut [f64],
    work: &mut [f64],
) {
    let t = run(s, blocks, table, input, output, work);
    if !t.good {
        sys.write_all(ERROR, b"cost: a block was refused\n");
        return;
    }
    let next = t.state;
    tell(
        sys,
        next.input as u64,
        next.output as u64,
        table_sum::sum_of(output),
    );
}

// The samples of the table that a record asks for.
fn table_length(s: State) -> usize {
    let kind = s.kind;
    if !kinds::kind_holds(kind) {
        return 0;
    }
    kinds::table_length(kind)
}

// On areas of the lengths that the record asks for. A channel's share of the input is as long as that of
// the working area, which no block needs whole.
fn run_on(
    sys: &mut System,
    s: State,
    blocks: u64,
    table: &[f64],
    input: &[f64],
    output: &mut [f64],
    work: &mut [f64],
) {
    let a = front_of(table, table_length(s));
    let b = front_of(input, lent::work_length(s));
    let c = front_of(output, lent::area_length(s.channels, s.output));
    let d = front_of(work, lent::work_length(s));
    run_and_tell(
        sys,
        s,
        blocks,
        &table[..a],
        &input[..b],
        &mut output[..c],
        &mut work[..d],
    );
}

fn made(values: Values) -> Result<State, Refusal> {
    let kind = kind_in(values);
    construction::new_kind(
        0.9,
        1.1,
        kind,
        count_at(values, 5),
        count_at(values, 4),
        FixedAsync::Output,
    )
}

// What is read is filled as far as the record asks for it.
fn started(
    sys: &mut System,
    s: State,
    blocks: u64,
    table: &mut [f64],
    input: &mut [f64],
    output: &mut [f64],
    work: &mut [f64],
) {
    fill(table, table_length(s));
    fill(input, lent::work_length(s));
    run_on(sys, s, blocks, table, input, output, work);
}

fn measure(
    sys: &mut System,
    values: Values,
    table: &mut [f64],
    input: &mut [f64],
    output: &mut [f64],
    work: &mut [f64],
) {
    match made(values) {
        Ok(s) => started(sys, s, number_at(values, 6), table, input, output, work),
        Err(_) => {
            sys.write_all(ERROR, b"cost: the record was refused\n");
        }
    }
}

fn main(rt: HostRuntime) {
    let mut system = System::new(rt);
    let sys = &mut system;
    let mut table = [0.0; 262144];
    let mut input = [0.0; 131072];
    let mut output = [0.0; 131072];
    let mut work = [0.0; 131072];
    let values = numbers::read(sys);
    measure(sys, values, &mut table, &mut input, &mut output, &mut work);
}
