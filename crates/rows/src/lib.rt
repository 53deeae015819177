// The two kernels that are given by rows of whole numbers, Septic and Quintic. Only our own crates call
// these functions.
#![tactic(auto)]

ghost use Rattle.std.specs.Prelude.{◌≡◌, length};
ghost use Rattle.rows.specs.Rows.{row_sum, septic, quintic};
ghost use Rattle.rows.specs.Turns.{step_part, row_next, top};

// One row for each power of x, the highest first.
const SEPTIC: [[i32; 8]; 8] = [
    [-1, 7, -21, 35, -35, 21, -7, 1],
    [7, -42, 105, -140, 105, -42, 7, 0],
    [-7, -14, 189, -490, 595, -378, 119, -14],
    [-35, 420, -1365, 1960, -1365, 420, -35, 0],
    [56, -497, 336, 1715, -3080, 1869, -448, 49],
    [28, -378, 3780, -6860, 3780, -378, 28, 0],
    [-48, 504, -3024, -1260, 5040, -1512, 336, -36],
    [0, 0, 0, 5040, 0, 0, 0, 0],
];

const QUINTIC: [[i32; 6]; 6] = [
    [-1, 5, -10, 10, -5, 1],
    [5, -20, 30, -20, 5, 0],
    [-5, -5, 50, -70, 35, -5],
    [-5, 80, -150, 80, -5, 0],
    [6, -60, -40, 120, -30, 4],
    [0, 0, 120, 0, 0, 0],
];

// One entry more of a row. Its sum is None before the first term, so that no term is added to 0.0; a zero
// entry is skipped.
fn step(sum: Option<f64>, c: i32, y: f64) -> Option<f64>
    ensures { result ≡ step_part sum c y }
{
    if c == 0 {
        return sum;
    }
    let t = (c as f64) * y;
    Some(sum.map_or(t, |s| s + t))
}

// The row's sum on the samples, left to right.
fn row_sum(row: &[i32], ys: &[f64]) -> f64
    ensures { result ≡ row_sum row.now ys.now }
{
    let mut sum = None;
    for (c, y) in row.iter().zip(ys) {
        sum = step(sum, *c, *y);
    }
    sum.unwrap_or(0.0)
}

// One row more: its sum, plus x times what the rows before it gave.
fn next(acc: Option<f64>, x: f64, sum: f64) -> f64
    ensures { result ≡ row_next x acc sum }
{
    acc.map_or(sum, |a| sum + x * a)
}

// Horner over the rows, the highest power first.
fn horner<const L: usize>(rows: &[[i32; L]; L], x: f64, ys: &[f64]) -> f64
    ensures { result ≡ top x ys.now rows.now }
{
    let mut acc = None;
    for row in rows {
        acc = Some(next(acc, x, row_sum(row, ys)));
    }
    acc.unwrap_or(0.0)
}

// Samples at x = -3, -2, .., 4.
pub fn septic_of(x: f64, ys: &[f64]) -> f64
    requires { length ys.now ≡ 8 }
    ensures { result ≡ septic x ys.now }
{
    (1.0 / 5040.0) * horner(&SEPTIC, x, ys)
}

// Samples at x = -2, -1, .., 3.
pub fn quintic_of(x: f64, ys: &[f64]) -> f64
    requires { length ys.now ≡ 6 }
    ensures { result ≡ quintic x ys.now }
{
    (1.0 / 120.0) * horner(&QUINTIC, x, ys)
}
