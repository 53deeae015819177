// What the words ask for.
use crate::names::Name;
use asynchro_fast::PolynomialDegree;
use asynchro_sinc::SincInterpolationType;
use kinds::Kind;
use sizes::FixedAsync;
use windows::WindowFunction;

// Where a file is named: the word's place, and where the name begins in it.
#[derive(Clone, Copy)]
pub struct Place {
    pub at: usize,
    pub from: usize,
}

// A file, or the standard stream that `-` is.
#[derive(Clone, Copy)]
pub enum Target {
    Standard,
    File(Place),
}

// The two of `--rates`: the ratio, and the input's rate in frames a second where it is below 2^64.
#[derive(Clone, Copy)]
pub struct Rates {
    pub ratio: f64,
    pub input: Option<u64>,
}

#[derive(Clone, Copy)]
pub struct Sinc {
    pub points: usize,
    pub factor: usize,
    pub blend: SincInterpolationType,
}

// The ratio from a block on; the block of a ramp goes to it step by step.
#[derive(Clone, Copy)]
pub struct Change {
    pub block: u64,
    pub ratio: f64,
    pub ramp: bool,
}

// So many changes fit on the command line.
pub const CHANGES: usize = 16;

// What stands behind each name that was given. The changes stand first among their places.
#[derive(Clone, Copy)]
pub struct Options {
    pub ratio: Option<f64>,
    pub rates: Option<Rates>,
    pub m: Option<f64>,
    pub degree: Option<PolynomialDegree>,
    pub sinc: Option<Sinc>,
    pub cutoff: Option<f64>,
    pub window: Option<WindowFunction>,
    pub chunk: Option<usize>,
    pub fixed: Option<FixedAsync>,
    pub channels: Option<usize>,
    pub mask: Option<u64>,
    pub tones: Option<u64>,
    pub input: Option<Target>,
    pub output: Option<Target>,
    pub log: Option<Target>,
    pub plan: Option<Place>,
    pub table: Option<Place>,
    pub passlog: Option<Place>,
    pub status: Option<Place>,
    pub changes: [Option<Change>; CHANGES],
    pub raw: bool,
    pub force: bool,
    pub help: bool,
    pub short_help: bool,
    pub version: bool,
}

// The file that is named.
pub fn file_of(target: Option<Target>) -> Option<Place> {
    match target {
        Some(Target::File(place)) => Some(place),
        _ => None,
    }
}

// What was given, and what holds where it was not.
impl Options {
    // No word was read.
    pub fn none() -> Options {
        Options {
            ratio: None,
            rates: None,
            m: None,
            degree: None,
            sinc: None,
            cutoff: None,
            window: None,
            chunk: None,
            fixed: None,
            channels: None,
            mask: None,
            tones: None,
            input: None,
            output: None,
            log: None,
            plan: None,
            table: None,
            passlog: None,
            status: None,
            changes: [None; CHANGES],
            raw: false,
            force: false,
            help: false,
            short_help: false,
            version: false,
        }
    }

    // Whether there is an `--at`, or a `--ramp`.
    fn has_change(&self, ramp: bool) -> bool {
        self.changes.iter().flatten().any(|c| c.ramp == ramp)
    }

    // Whether the name was given.
    pub fn has(&self, name: Name) -> bool {
        match name {
            Name::Ratio => self.ratio.is_some(),
            Name::M => self.m.is_some(),
            Name::Cutoff => self.cutoff.is_some(),
            Name::Chunk => self.chunk.is_some(),
            Name::Channels => self.channels.is_some(),
            Name::Mask => self.mask.is_some(),
            Name::Tones => self.tones.is_some(),
            Name::Degree => self.degree.is_some(),
            Name::Fixed => self.fixed.is_some(),
            Name::Window => self.window.is_some(),
            Name::Input => self.input.is_some(),
            Name::Output => self.output.is_some(),
            Name::Log => self.log.is_some(),
            Name::Plan => self.plan.is_some(),
            Name::Table => self.table.is_some(),
            Name::Passlog => self.passlog.is_some(),
            Name::Status => self.status.is_some(),
            Name::Rates => self.rates.is_some(),
            Name::Sinc => self.sinc.is_some(),
            Name::At => self.has_change(false),
            Name::Ramp => self.has_change(true),
            Name::Raw => self.raw,
            Name::Force => self.force,
            Name::Help => self.help,
            Name::ShortHelp => self.short_help,
            Name::Version => self.version,
        }
    }

    // A change behind those that are there; whether there was a place for it.
    pub fn add(&mut self, change: Change) -> bool {
        for place in self.changes.iter_mut() {
            if place.is_none() {
                *place = Some(change);
                return true;
            }
        }
        false
    }

    // The ratio that --ratio or --rates gave; a pass has one.
    pub fn ratio(&self) -> f64 {
        match self.rates {
            Some(rates) => rates.ratio,
            None => self.ratio.unwrap_or(0.0),
        }
    }

    // The input's rate.
    pub fn rate(&self) -> Option<u64> {
        self.rates?.input
    }

    pub fn m(&self) -> f64 {
        self.m.unwrap_or(2.0)
    }

    pub fn degree(&self) -> PolynomialDegree {
        self.degree.unwrap_or(PolynomialDegree::Septic)
    }

    // What a pass resamples by.
    pub fn kind(&self) -> Kind {
        match self.sinc {
            Some(sinc) => Kind::Sinc(sinc.points, sinc.factor, sinc.blend),
            None => Kind::Polynomial(self.degree()),
        }
    }

    pub fn window(&self) -> WindowFunction {
        self.window.unwrap_or(WindowFunction::BlackmanHarris2)
    }

    pub fn chunk(&self) -> usize {
        self.chunk.unwrap_or(1024)
    }

    pub fn fixed(&self) -> FixedAsync {
        self.fixed.unwrap_or(FixedAsync::Output)
    }

    pub fn channels(&self) -> usize {
        self.channels.unwrap_or(1)
    }
}
