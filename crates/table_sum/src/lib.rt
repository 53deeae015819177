// The sum of a table, by which a pass can name it: over the bits of its entries, in order, in Fletcher's way.
#![tactic(auto)]

ghost use Rattle.std.specs.Prelude.{◌≡◌};
ghost use Rattle.table_sum.specs.Sum.{plus_entry, sum_of};

// All entries' bits summed up, and all of these running sums summed up, both modulo 2^64. Of no entry both are 0.
#[derive(Clone, Copy, Debug, PartialEq, Eq, Default)]
pub struct TableSum {
    pub first: u64,
    pub second: u64,
}

// One entry more.
fn plus_entry(sum: TableSum, entry: f64) -> TableSum
    ensures { result ≡ plus_entry sum entry }
{
    let first = sum.first.wrapping_add(text::bits_of(entry));
    let second = sum.second.wrapping_add(first);
    TableSum { first, second }
}

// The sum of a table of any length. Two tables that differ in one entry, or in the order of two neighbours,
// have different sums; other tables may share one.
#[tactic(auto, using(crate::proofs::Sums::summed_next, crate::proofs::Sums::summed_done))]
pub fn sum_of(table: &[f64]) -> TableSum
    ensures { result ≡ sum_of table.now }
{
    let mut sum = TableSum::default();
    for entry in table {
        sum = plus_entry(sum, *entry);
    }
    sum
}
