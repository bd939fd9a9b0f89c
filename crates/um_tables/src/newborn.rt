//! A thread that is started.

use um_base::{Mode, Row, ThreadIx};
use um_machine::Place;

/// What a new thread begins with.
#[derive(Clone, Copy)]
pub struct Newborn {
    pub thread: ThreadIx,
    pub mode: Mode,
    /// The row of its thread stack.
    pub stack: Row,
    /// -16 to 14; a lower number is a higher priority.
    pub priority: i8,
    /// The number of its creator's resource pool, 0 to 3.
    pub pool: Option<u8>,
    /// The first place of its script.
    pub place: Place,
}

/// A placeholder where no thread is started.
pub const NOBODY: Newborn = Newborn {
    thread: ThreadIx(0),
    mode: Mode::User,
    stack: Row(0),
    priority: 0,
    pool: None,
    place: Place {
        script: 0,
        line: 0,
        left: 0,
    },
};
