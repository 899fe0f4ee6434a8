//! How a call ends.

ghost use Rattle.std.specs.Prelude.{◌≡◌};
ghost use Rattle.sp_tool.specs.Statuses.{number_of};

/// How a call ended.
#[derive(Clone, Copy, Debug, Drop, PartialEq, Eq)]
pub enum Status {
    /// The command's text was written whole.
    Done,
    /// A file isn't accepted.
    Refused,
    /// The words are those of no command.
    Usage,
    /// There was no memory.
    NoMemory,
    /// A file couldn't be read.
    ReadFault,
    /// The text couldn't be written.
    WriteFault,
    /// A plan file isn't legal, or one of its values isn't its edition's.
    NotLegal,
}

impl Status {
    /// The number with which the program ends.
    pub fn number(self) -> u8
        ensures { result ≡ number_of self }
    {
        match self {
            Status::Done => 0,
            Status::Refused => 1,
            Status::Usage => 2,
            Status::NoMemory => 3,
            Status::ReadFault => 4,
            Status::WriteFault => 5,
            Status::NotLegal => 6,
        }
    }
}
