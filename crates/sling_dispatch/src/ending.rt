//! How a run ends, and its exit status.
ghost use Rattle.std.specs.Prelude.{◌≡◌};
ghost use Rattle.sling_dispatch.specs.Endings.{ending_status};

/// How a run ends.
#[derive(Clone, Copy, PartialEq, Eq, Debug, Drop)]
pub enum Ending {
    /// The scenario was run to its end.
    Done,
    /// The words are none that the program knows.
    Usage,
    SourceFailed,
    SinkFailed,
    /// The source's bytes are no scenario.
    Refused,
    /// The content has no reading.
    ContentRefused,
    /// The farm's text has no reading.
    FarmRefused,
    /// The disk failed before the first turn.
    DocrootFailed,
    /// What comes next couldn't be asked.
    WorldFailed,
    /// An input couldn't be read.
    InputFailed,
    /// The number of the session is of another form, or at its end.
    NotOpened,
    NoMemory,
}

impl Ending {
    /// The exit status.
    pub fn status(self) -> u8
        ensures { result ≡ ending_status self }
    {
        match self {
            Ending::Done => 0,
            Ending::Usage => 2,
            Ending::SourceFailed => 3,
            Ending::SinkFailed => 4,
            Ending::Refused => 5,
            Ending::ContentRefused => 6,
            Ending::FarmRefused => 7,
            Ending::DocrootFailed => 8,
            Ending::WorldFailed => 9,
            Ending::InputFailed => 10,
            Ending::NotOpened => 11,
            Ending::NoMemory => 70,
        }
    }
}
