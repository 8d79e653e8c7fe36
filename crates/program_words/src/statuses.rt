//! How the program ends.

ghost use Rattle.std.specs.Prelude.{◌≡◌};
ghost use Rattle.program_words.specs.Statuses.{status_number};

/// How the program ended.
#[derive(Clone, Copy, Debug, PartialEq, Eq)]
pub enum Status {
    /// What was asked for is done.
    Done,
    /// The words are no form of words.
    NoForm,
    /// The script is not valid.
    BadScript,
    /// A setting of the script is refused.
    RefusedSetting,
    /// The input is longer than 67,108,864 bytes.
    TooLong,
    /// The source failed.
    ReadFailed,
    /// The sink of the pages failed.
    WriteFailed,
    /// Memory was refused.
    NoMemory,
    /// The listener failed.
    ListenerFailed,
    /// The input is no stream of pages.
    BadStream,
    /// The pages don't merge.
    Conflict,
    /// The input ends within a payload.
    CutStream,
    /// The input doesn't begin with rules.
    BadRules,
}

impl Status {
    /// The number that the program ends with.
    pub fn number(self) -> u8
        ensures { result ≡ status_number self }
    {
        match self {
            Status::Done => 0,
            Status::NoForm => 2,
            Status::BadScript => 3,
            Status::RefusedSetting => 4,
            Status::TooLong => 5,
            Status::ReadFailed => 6,
            Status::WriteFailed => 7,
            Status::NoMemory => 8,
            Status::ListenerFailed => 9,
            Status::BadStream => 10,
            Status::Conflict => 11,
            Status::CutStream => 12,
            Status::BadRules => 13,
        }
    }
}
