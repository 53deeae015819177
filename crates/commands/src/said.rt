// What a line is answered with: `ok` with what was asked for, `ref` with a refusal's number and floats,
// or `bad`.
use error::Refusal;

// The first word of an answer.
#[derive(Clone, Copy)]
pub enum Head {
    // The line can't be read.
    Bad,
    Refused,
    Ok,
}

// A word behind the first.
#[derive(Clone, Copy)]
pub enum Word {
    Float(f64),
    // A float that is put behind the one before it, as the samples of an area are.
    Joined(f64),
    Whole(u64),
    // One below 0, by its size.
    Below(u64),
    // The first so many samples of an area that is lent beside.
    Area(usize),
}

// A block's answer has the most words.
const MOST: usize = 18;

// An answer: its first word, and the words behind it, `count` of them, which stand first among their places: an
// answer is made a word at a time, and the next one's place is not looked for.
#[derive(Clone, Copy)]
pub struct Said {
    pub head: Head,
    pub count: usize,
    pub words: [Option<Word>; MOST],
}

pub fn begun(head: Head) -> Said {
    Said {
        head,
        count: 0,
        words: [None; MOST],
    }
}

pub fn ok() -> Said {
    begun(Head::Ok)
}

impl Said {
    // One word more, where there is a place for it.
    pub fn put(&mut self, word: Word) {
        let at = self.count;
        if at < MOST {
            self.words[at] = Some(word);
            self.count = at + 1;
        }
    }
}

// The word of a count.
pub fn counted(n: usize) -> Word {
    Word::Whole(n as u64)
}

// The word of a whole number that may be below 0.
pub fn signed(z: i64) -> Word {
    let size = text::size_of(z);
    if z < 0 {
        Word::Below(size)
    } else {
        Word::Whole(size)
    }
}

#[inline(always)]
fn and(said: Said, word: Word) -> Said {
    let mut then = said;
    then.put(word);
    then
}

pub fn float(said: Said, x: f64) -> Said {
    and(said, Word::Float(x))
}

pub fn joined(said: Said, x: f64) -> Said {
    and(said, Word::Joined(x))
}

pub fn whole(said: Said, n: u64) -> Said {
    and(said, Word::Whole(n))
}

pub fn count(said: Said, n: usize) -> Said {
    and(said, counted(n))
}

// So many samples.
pub fn area(said: Said, n: usize) -> Said {
    and(said, Word::Area(n))
}

// A refusal's number and floats.
pub fn refused(r: Refusal) -> Said {
    let carried = error::values(r);
    let mut said = whole(begun(Head::Refused), error::number(r));
    for x in carried.values.iter().take(carried.count) {
        said = float(said, *x);
    }
    said
}

// A leaf's answer.
pub fn said_of(answer: Result<f64, Refusal>) -> Said {
    match answer {
        Ok(x) => float(ok(), x),
        Err(r) => refused(r),
    }
}
