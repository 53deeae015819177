// The record that the words ask for, and whether a pass of it can begin.
use course::{Pass, Stage, next_line, no_plan, second_now};
use error::Refusal;
use options::{Files, Options, say, say_refused, say_start};
use state::State;
use system::System;

// The record, or the refusal told.
pub fn made_told(sys: &mut System, o: &Options) -> Result<State, Refusal> {
    let m = construction::new_kind(
        o.ratio(),
        o.m(),
        o.kind(),
        o.chunk(),
        o.channels(),
        o.fixed(),
    );
    if let Err(r) = m {
        say_start(sys);
        say_refused(sys, r);
    }
    m
}

// The bits of all channels.
fn all_on(channels: usize) -> u64 {
    if channels <= 16 {
        65535 >> (16 - channels)
    } else {
        0
    }
}

pub fn mask_of(o: &Options) -> u64 {
    o.mask.unwrap_or(all_on(o.channels()))
}

// Whether the areas hold a pass, and the mask is one. It is asked before a file is opened, and the mask
// has the number that the block run has for it.
pub fn is_ready(sys: &mut System, s: State, mask: u64, most: usize) -> bool {
    let len = lent::work_length(s);
    if (len == 0) | (len > most) {
        say_start(sys);
        say(
            sys,
            b"this pass has areas of more than 131072 samples: lower --chunk, --m or --channels\n",
        );
        return false;
    }
    if s.channels >= 64 || !channel::mask_fits(mask, s.channels) {
        say_start(sys);
        say_refused(sys, Refusal::BufferShape);
        return false;
    }
    true
}

// A pass before its first block: one frame of the input is held, and the plan stands before its first line.
// The line begins at the index of the construction.
pub fn first_pass(sys: &mut System, index: f64, mask: u64, files: Files, bytes: &mut [u8]) -> Pass {
    Pass {
        counts: tally::none_yet(),
        line: pass_line::started(index),
        mask,
        held: true,
        ended: false,
        first: None,
        second: second_now(sys),
        stage: Stage::Going,
        good: true,
        plan: next_line(sys, files.plan, bytes, no_plan()),
    }
}
