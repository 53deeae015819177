// What is said of a record. An answer of many words is made in its place and not handed on.
use crate::said::{Said, Word, counted, ok, refused};
use state::State;

// max-in max-out
fn put_maxima(said: &mut Said, s: State) {
    said.put(counted(questions::input_frames_max(s).unwrap_or(0)));
    said.put(counted(questions::output_frames_max(s).unwrap_or(0)));
}

// channels chunk construction-chunk needed-in needed-out
fn put_counts(said: &mut Said, s: State) {
    said.put(counted(s.channels));
    said.put(counted(s.chunk));
    said.put(counted(s.chunk0));
    said.put(counted(s.input));
    said.put(counted(s.output));
}

// index fill current original target m
fn put_floats(said: &mut Said, s: State) {
    said.put(Word::Float(s.index));
    said.put(counted(s.fill));
    said.put(Word::Float(s.current));
    said.put(Word::Float(s.original));
    said.put(Word::Float(s.target));
    said.put(Word::Float(s.m));
}

// The record whole; the maximum sizes stand before its stored steps.
pub fn with_state(before: Said, s: State) -> Said {
    let mut said = before;
    put_counts(&mut said, s);
    put_floats(&mut said, s);
    put_maxima(&mut said, s);
    said.put(Word::Float(s.now));
    said.put(Word::Float(s.then));
    said
}

// needed-in needed-out max-in max-out current delay
pub fn questions(s: State) -> Said {
    match questions::input_frames_next(s) {
        Ok(n) => {
            let mut said = ok();
            said.put(counted(n));
            said.put(counted(questions::output_frames_next(s).unwrap_or(0)));
            put_maxima(&mut said, s);
            said.put(Word::Float(questions::resample_ratio(s).unwrap_or(0.0)));
            said.put(counted(questions::output_delay(s).unwrap_or(0)));
            said
        }
        Err(r) => refused(r),
    }
}

// step-now step-then
pub fn step_questions(s: State) -> Said {
    match questions::input_step_now(s) {
        Ok(x) => {
            let mut said = ok();
            said.put(Word::Float(x));
            said.put(Word::Float(questions::input_step_then(s).unwrap_or(0.0)));
            said
        }
        Err(r) => refused(r),
    }
}
