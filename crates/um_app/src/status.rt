//! How a command ended.

ghost use Rattle.std.specs.Prelude.{◌≡◌};
ghost use Rattle.um_app.specs.Messages.{line_of, code_of};

/// How a command ended.
#[derive(Clone, Copy, Debug, PartialEq, Eq)]
pub enum Status {
    /// The whole text was written.
    Done,
    /// The words are no command.
    Usage,
    /// The input is no description, or for `audit` none with a trace after it.
    Refused,
    /// The input couldn't be read.
    ReadFault,
    /// The text couldn't be written whole.
    WriteFault,
    /// Memory ran out before the first byte was written.
    NoMemory,
    /// The input has too many bytes: the description more than 1,048,576, or all that `audit` reads more than 67,108,864.
    TooLong,
}

impl Status {
    /// The exit status of the program: 0 where all was done.
    pub fn code(self) -> u8
        ensures { result ≡ code_of self }
    {
        match self {
            Status::Done => 0,
            Status::Usage => 2,
            Status::Refused => 3,
            Status::ReadFault => 4,
            Status::WriteFault => 5,
            Status::NoMemory => 6,
            Status::TooLong => 7,
        }
    }

    /// The line on standard error, with its newline: none where all was done, or where the description's fault has its own.
    #[tactic(auto, unfolding(crate::specs::Messages::line_of))]
    pub fn line(self) -> &'static str
        ensures { result.now ≡ line_of self }
    {
        match self {
            Status::Done => "",
            Status::Usage => {
                "zumode: usage: sim [--cpus N] [--pick N] | run [--cpus N] | layout | gen N | summary [--cpus N] [--pick N] | upgrade | audit\n"
            }
            Status::Refused => "",
            Status::ReadFault => "zumode: read fault\n",
            Status::WriteFault => "zumode: write fault\n",
            Status::NoMemory => "zumode: no memory\n",
            Status::TooLong => "zumode: input too long\n",
        }
    }
}
