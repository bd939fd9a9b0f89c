//! Why a line is refused.

/// What is wrong with a line, or with one of its words.
#[derive(Clone, Copy, PartialEq, Eq)]
pub enum LineKind {
    /// The first word names no instruction.
    UnknownWord,
    /// The line ends where the instruction or an operand should stand.
    Missing,
    /// A word isn't of its operand's form.
    Operand,
    /// A number is out of its range.
    Range,
    /// A word stands behind the last operand.
    Extra,
}

/// The first fault of a line from the left.
#[derive(Clone, Copy, PartialEq, Eq)]
pub struct LineFault {
    pub kind: LineKind,
    /// The byte of the line where it stands, counted from 1.
    pub column: u32,
}
