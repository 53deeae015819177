// What the words ask for, and whether they go together.
use crate::complaints::{Bad, Complaint, complain};
use crate::names::Name;
use crate::options::{Options, Target, file_of};
use system::System;

#[derive(Clone, Copy)]
pub enum Task {
    Help,
    Version,
    // So many frames of two test tones.
    Tones(u64),
    Pass,
}

// With --tones nothing goes but --out, --status and --force.
const NOT_WITH_TONES: [Name; 19] = [
    Name::Ratio,
    Name::M,
    Name::Cutoff,
    Name::Chunk,
    Name::Channels,
    Name::Mask,
    Name::Degree,
    Name::Fixed,
    Name::Window,
    Name::Input,
    Name::Log,
    Name::Plan,
    Name::Table,
    Name::Passlog,
    Name::Rates,
    Name::Sinc,
    Name::At,
    Name::Ramp,
    Name::Raw,
];

// That none of the names was given; the first that was is told.
fn without(sys: &mut System, o: &Options, names: &[Name], complaint: Complaint) -> Result<(), Bad> {
    for name in names {
        if o.has(*name) {
            return Err(complain(sys, Some(*name), complaint));
        }
    }
    Ok(())
}

// A pass has a sinc or a degree; what helps to build a table wants a sinc, and no table.
fn fits_kind(sys: &mut System, o: &Options) -> Result<(), Bad> {
    if o.sinc.is_none() {
        let idle = [Name::Cutoff, Name::Window, Name::Table];
        return without(sys, o, &idle, Complaint::NoSinc);
    }
    if o.degree.is_some() {
        return Err(complain(sys, Some(Name::Sinc), Complaint::TwoKinds));
    }
    if o.table.is_some() {
        let idle = [Name::Cutoff, Name::Window];
        return without(sys, o, &idle, Complaint::WithTable);
    }
    Ok(())
}

// A pass wants a ratio, and room for its log.
fn fits_pass(sys: &mut System, o: &Options) -> Result<(), Bad> {
    if o.ratio.is_none() && o.rates.is_none() {
        return Err(complain(sys, Some(Name::Ratio), Complaint::NoRatio));
    }
    if o.ratio.is_some() && o.rates.is_some() {
        return Err(complain(sys, Some(Name::Rates), Complaint::TwoRatios));
    }
    if matches!(o.log, Some(Target::Standard)) && file_of(o.output).is_none() {
        return Err(complain(sys, Some(Name::Log), Complaint::LogOnOutput));
    }
    fits_kind(sys, o)
}

// What the words ask for, if they go together.
pub fn task_of(sys: &mut System, o: &Options) -> Result<Task, Bad> {
    if o.help || o.short_help {
        return Ok(Task::Help);
    }
    if o.version {
        return Ok(Task::Version);
    }
    if let Some(frames) = o.tones {
        without(sys, o, &NOT_WITH_TONES, Complaint::Idle)?;
        return Ok(Task::Tones(frames));
    }
    fits_pass(sys, o)?;
    Ok(Task::Pass)
}
