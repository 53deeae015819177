// How many answers were compared, and how many are as stored.
use system::{OUTPUT, System};

// `first` is the number of the first answer that is another.
#[derive(Clone, Copy)]
pub struct Tally {
    pub crates: u64,
    pub crates_same: u64,
    pub others: u64,
    pub others_same: u64,
    pub first: Option<u64>,
}

pub fn none_yet() -> Tally {
    Tally {
        crates: 0,
        crates_same: 0,
        others: 0,
        others_same: 0,
        first: None,
    }
}

// The first other answer: this one where it is other and none was before it.
fn first_of(t: Tally, same: bool) -> Option<u64> {
    if t.first.is_some() || same {
        return t.first;
    }
    Some(t.crates.saturating_add(t.others).saturating_add(1))
}

// One answer more.
pub fn with(t: Tally, of_crate: bool, same: bool) -> Tally {
    Tally {
        crates: t.crates.saturating_add(u64::from(of_crate)),
        crates_same: t.crates_same.saturating_add(u64::from(of_crate & same)),
        others: t.others.saturating_add(u64::from(!of_crate)),
        others_same: t.others_same.saturating_add(u64::from(!of_crate & same)),
        first: first_of(t, same),
    }
}

fn print_line(sys: &mut System, word: &[u8], n: u64) {
    sys.write_all(OUTPUT, word);
    sys.print_decimal(OUTPUT, n);
    sys.write_all(OUTPUT, b"\n");
}

pub fn print(sys: &mut System, t: Tally) {
    print_line(sys, b"answers of the crate: ", t.crates);
    print_line(sys, b"of these the same: ", t.crates_same);
    print_line(sys, b"answers by documents 01 and 02 alone: ", t.others);
    print_line(sys, b"of these the same: ", t.others_same);
    if let Some(first) = t.first {
        print_line(sys, b"the first other answer is number ", first);
    }
}
