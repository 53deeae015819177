// The log's head and its end, and what the operator is told at the end.
use crate::pass::{FirstFrame, Line, Pass, Stage, tell};
use kinds::Kind;
use options::{Change, Files, Options, say, say_start};
use sizes::FixedAsync;
use state::State;
use system::{Fd, System};

fn write_side(sys: &mut System, log: Fd, side: FixedAsync) -> bool {
    match side {
        FixedAsync::Output => sys.write_all(log, b" fixed out"),
        FixedAsync::Input => sys.write_all(log, b" fixed in"),
    }
}

// What a pass resamples by: a polynomial's degree, or a sinc's blend.
fn write_kind(sys: &mut System, log: Fd, kind: Kind) -> bool {
    match kind {
        Kind::Sinc(_, _, blend) => {
            let name = sys.write_all(log, b"sinc ");
            name & options::write_blend(sys, log, blend)
        }
        Kind::Polynomial(degree) => {
            let name = sys.write_all(log, b"degree ");
            name & options::write_degree(sys, log, degree)
        }
    }
}

// The head: the version, the words, and the record that they made.
pub fn write_head(sys: &mut System, o: &Options, files: Files, s: State, mask: u64) -> bool {
    let version = options::write_version(sys, files.log);
    let name = forms::write_form(sys, files.log, b"words ", &[]);
    let words = options::write_words(sys, files.log);
    let ratios = [text::bits_of(s.original), text::bits_of(s.m)];
    let first = forms::write_form(sys, files.log, b"\nratio $ m $\n", &ratios);
    let kind = write_kind(sys, files.log, s.kind);
    let side = write_side(sys, files.log, o.fixed());
    let sizes = [
        kinds::nbr_points(s.kind) as u64,
        s.chunk as u64,
        s.channels as u64,
        mask,
        text::bits_of(s.index),
    ];
    let second = forms::write_form(
        sys,
        files.log,
        b" points # chunk # channels # mask # start index $\n",
        &sizes,
    );
    version & name & words & first & kind & side & second
}

// Where the first frame written stands.
fn tell_first(sys: &mut System, first: FirstFrame, o: &Options, files: Files) -> bool {
    let index = text::bits_of(first.index);
    match o.sinc {
        Some(sinc) => tell(
            sys,
            files,
            b"the first frame written stands at # input frames used before its block, the index $, and # frames and 1/# of one up to the sinc's middle\n",
            &[
                first.used,
                index,
                (sinc.points / 2).saturating_sub(1) as u64,
                sinc.factor as u64,
            ],
        ),
        None => tell(
            sys,
            files,
            b"the first frame written stands at # input frames used before its block and the index $\n",
            &[first.used, index],
        ),
    }
}

// Where the output begins, what was cut of the blocks and what was fed behind the input.
fn tell_cut(sys: &mut System, p: Pass, o: &Options, files: Files) -> bool {
    let c = p.counts;
    let cut = tell(
        sys,
        files,
        b"# frames of zeros behind the input; frames cut: # before the input, # behind it\n",
        &[c.used.saturating_sub(c.given), c.before, c.behind],
    );
    match p.first {
        Some(first) => cut & tell_first(sys, first, o, files),
        None => cut,
    }
}

fn float_of(n: u64) -> f64 {
    std::num::nearest_u64_to_f64(n)
}

// The totals, and the bound that is proved of them.
fn tell_totals(sys: &mut System, p: Pass, files: Files) -> bool {
    let c = p.counts;
    let units = tally::bound(c);
    let bound = float_of(units) / 70368744177664.0;
    let numbers = [
        c.given,
        c.written,
        c.made,
        c.blocks,
        units,
        text::bits_of(bound),
    ];
    tell(
        sys,
        files,
        b"# frames in, # frames out, N # B #: the stored position is at most #/2^46 of a sample, which is $, from the exact one (proved)\n",
        &numbers,
    )
}

// Whether every change of the words was followed by a block; one that was not is told.
fn words_reached(sys: &mut System, files: Files, blocks: u64, changes: &[Option<Change>]) -> bool {
    let mut good = true;
    for change in changes.iter().flatten() {
        if change.block >= blocks {
            tell(
                sys,
                files,
                b"the ratio change before block # was never reached: the pass has # blocks\n",
                &[change.block, blocks],
            );
            good = false;
        }
    }
    good
}

// Whether every line of the plan was followed by a block.
fn plan_reached(sys: &mut System, p: Pass, files: Files) -> bool {
    let c = p.counts;
    if matches!(p.plan.line, Line::Over) && p.plan.reached <= c.blocks {
        return true;
    }
    tell(
        sys,
        files,
        b"the plan was not followed to its end: the pass has # blocks, and line # of the plan was not reached\n",
        &[c.blocks, p.plan.cursor.line],
    );
    false
}

// Closes a file of ours, and says whether that went well: what was written last may be lost only now.
fn closed(sys: &mut System, fd: Option<Fd>, what: &[u8]) -> bool {
    match fd {
        Some(fd) if fd.is_file() && sys.close(fd).is_err() => {
            sys.fail(what);
            false
        }
        _ => true,
    }
}

// How the pass ended, with its frames.
fn tell_end(sys: &mut System, p: Pass, good: bool) {
    let c = p.counts;
    let numbers = [c.blocks, c.given, c.written];
    say_start(sys);
    if p.stage != Stage::Finished {
        say(sys, b"stopped before its end: ");
    } else if good {
        say(sys, b"done: ");
    } else {
        say(sys, b"done, but not all went well: ");
    }
    forms::write_form(
        sys,
        system::ERROR,
        b"# blocks, # frames in, # frames out\n",
        &numbers,
    );
}

// Whether every change was followed by a block; one that was not is told where the pass has come to its end.
fn all_reached(sys: &mut System, p: Pass, files: Files, changes: &[Option<Change>]) -> bool {
    if p.stage != Stage::Finished {
        return false;
    }
    let words = words_reached(sys, files, p.counts.blocks, changes);
    words & plan_reached(sys, p, files)
}

// What is told at the end, and whether all went well.
pub fn ended_well(sys: &mut System, p: Pass, o: &Options, files: Files) -> bool {
    let reached = all_reached(sys, p, files, &o.changes);
    let cut = tell_cut(sys, p, o, files);
    let totals = tell_totals(sys, p, files);
    let line = pass_line::tell_line(
        sys,
        files.log,
        files.log_file,
        p.line,
        o.rate().unwrap_or(0),
    );
    let output = closed(sys, files.output, b"resample: closing the output");
    let log = closed(sys, Some(files.log), b"resample: closing the log");
    let passlog = closed(sys, files.passlog, b"resample: closing the pass log");
    let good = p.good & reached & cut & totals & line & output & log & passlog;
    tell_end(sys, p, good);
    good
}
