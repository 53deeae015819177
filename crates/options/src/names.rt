// The names of the command line, and what stands behind each.

// In the order in which one that does nothing is looked for.
#[derive(Clone, Copy, PartialEq, Eq)]
pub enum Name {
    Ratio,
    M,
    Cutoff,
    Chunk,
    Channels,
    Mask,
    Tones,
    Degree,
    Fixed,
    Window,
    Input,
    Output,
    Log,
    Plan,
    Table,
    Passlog,
    Status,
    Rates,
    Sinc,
    At,
    Ramp,
    Raw,
    Force,
    Help,
    ShortHelp,
    Version,
}

// One word, which a `=` may join to the name; IN and OUT; POINTS, FACTOR and BLEND; a block and a ratio; nothing.
#[derive(Clone, Copy)]
pub enum Behind {
    Value,
    Rates,
    Sinc,
    Change,
    Nothing,
}

impl Name {
    // The name that the word is.
    pub fn of(word: &[u8]) -> Option<Name> {
        match word {
            b"--ratio" => Some(Name::Ratio),
            b"--m" => Some(Name::M),
            b"--cutoff" => Some(Name::Cutoff),
            b"--chunk" => Some(Name::Chunk),
            b"--channels" => Some(Name::Channels),
            b"--mask" => Some(Name::Mask),
            b"--tones" => Some(Name::Tones),
            b"--degree" => Some(Name::Degree),
            b"--fixed" => Some(Name::Fixed),
            b"--window" => Some(Name::Window),
            b"--in" => Some(Name::Input),
            b"--out" => Some(Name::Output),
            b"--log" => Some(Name::Log),
            b"--plan" => Some(Name::Plan),
            b"--table" => Some(Name::Table),
            b"--passlog" => Some(Name::Passlog),
            b"--status" => Some(Name::Status),
            b"--rates" => Some(Name::Rates),
            b"--sinc" => Some(Name::Sinc),
            b"--at" => Some(Name::At),
            b"--ramp" => Some(Name::Ramp),
            b"--raw" => Some(Name::Raw),
            b"--force" => Some(Name::Force),
            b"--help" => Some(Name::Help),
            b"-h" => Some(Name::ShortHelp),
            b"--version" => Some(Name::Version),
            _ => None,
        }
    }

    pub fn text(self) -> &'static str {
        match self {
            Name::Ratio => "--ratio",
            Name::M => "--m",
            Name::Cutoff => "--cutoff",
            Name::Chunk => "--chunk",
            Name::Channels => "--channels",
            Name::Mask => "--mask",
            Name::Tones => "--tones",
            Name::Degree => "--degree",
            Name::Fixed => "--fixed",
            Name::Window => "--window",
            Name::Input => "--in",
            Name::Output => "--out",
            Name::Log => "--log",
            Name::Plan => "--plan",
            Name::Table => "--table",
            Name::Passlog => "--passlog",
            Name::Status => "--status",
            Name::Rates => "--rates",
            Name::Sinc => "--sinc",
            Name::At => "--at",
            Name::Ramp => "--ramp",
            Name::Raw => "--raw",
            Name::Force => "--force",
            Name::Help => "--help",
            Name::ShortHelp => "-h",
            Name::Version => "--version",
        }
    }

    pub fn behind(self) -> Behind {
        match self {
            Name::Rates => Behind::Rates,
            Name::Sinc => Behind::Sinc,
            Name::At | Name::Ramp => Behind::Change,
            Name::Raw | Name::Force | Name::Help | Name::ShortHelp | Name::Version => {
                Behind::Nothing
            }
            _ => Behind::Value,
        }
    }
}
