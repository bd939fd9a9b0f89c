//! How a command ended.

ghost use Rattle.std.specs.Prelude.{◌≡◌};
ghost use Rattle.um_answers.specs.Messages.{code_of, is_answered, line_of};

/// How a command ended.
#[derive(Clone, Copy, Debug, PartialEq, Eq)]
pub enum Status {
    /// The run that was found, all ends, or what can come next, was written whole.
    Done,
    /// No run comes to what is asked: so it was written.
    Never,
    /// The words are no command.
    Usage,
    /// The input is no description, for `next` none with a trace after it, or a word of what is asked names nothing in it.
    Refused,
    /// The input couldn't be read.
    ReadFault,
    /// The answer couldn't be written whole.
    WriteFault,
    /// Memory ran out before the first byte was written.
    NoMemory,
    /// The input has too many bytes: the description more than 1,048,576, or all that `next` reads more than 67,108,864.
    TooLong,
    /// The answer isn't known: so it was written.
    Unknown,
}

impl Status {
    /// Whether an answer was written whole.
    pub fn is_answered(self) -> bool
        ensures { result ≡ is_answered self }
    {
        match self {
            Status::Done | Status::Never | Status::Unknown => true,
            _ => false,
        }
    }

    /// The exit status of the program.
    pub fn code(self) -> u8
        ensures { result ≡ code_of self }
    {
        match self {
            Status::Done => 0,
            Status::Never => 1,
            Status::Usage => 2,
            Status::Refused => 3,
            Status::ReadFault => 4,
            Status::WriteFault => 5,
            Status::NoMemory => 6,
            Status::TooLong => 7,
            Status::Unknown => 8,
        }
    }

    /// The line on standard error, with its newline: none where an answer was written, or where the cause of a refusal has its own.
    #[tactic(auto, unfolding(crate::specs::Messages::line_of))]
    pub fn line(self) -> &'static str
        ensures { result.now ≡ line_of self }
    {
        match self {
            Status::Done | Status::Never | Status::Refused | Status::Unknown => "",
            Status::Usage => {
                "explore: usage: find EVENT [--states N] | ends [--states N] | next\n"
            }
            Status::ReadFault => "explore: read fault\n",
            Status::WriteFault => "explore: write fault\n",
            Status::NoMemory => "explore: no memory\n",
            Status::TooLong => "explore: input too long\n",
        }
    }
}
