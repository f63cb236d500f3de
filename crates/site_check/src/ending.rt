//! How a check ends.
ghost use Rattle.std.specs.Prelude.{◌≡◌};
ghost use Rattle.site_check.specs.Endings.{check_status};

/// How a check ends, which its status says.
#[derive(Clone, Copy, PartialEq, Eq, Drop)]
pub enum CheckEnding {
    /// Nothing is wrong, or a question was answered.
    Fine,
    /// There are warnings, and no faults.
    Warned,
    /// There are faults.
    Faulty,
    /// The words are others than the program knows.
    Usage,
    /// A file couldn't be read, or is too long.
    InputFailed,
    NoMemory,
    /// The standard output took not all.
    SinkFailed,
}

impl CheckEnding {
    pub fn status(self) -> u8
        ensures { result ≡ check_status self }
    {
        match self {
            CheckEnding::Fine => 0,
            CheckEnding::Warned => 1,
            CheckEnding::Faulty => 2,
            CheckEnding::Usage => 64,
            CheckEnding::InputFailed => 66,
            CheckEnding::NoMemory => 70,
            CheckEnding::SinkFailed => 74,
        }
    }
}
