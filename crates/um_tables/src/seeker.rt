//! A thread that asks no object, and may begin to wait.

ghost use Rattle.std.specs.Prelude.{◌≡◌};
ghost use Rattle.um_tables.specs.Seekers.{seeks};

use um_base::{Ask, Piece, ThreadIx, Waiter};

/// A thread that asks for the end of another one or on a futex, and may begin to wait.
#[derive(Clone, Copy)]
pub struct Seeker {
    pub thread: ThreadIx,
    /// -16 to 14; a lower number is a higher priority.
    pub priority: i8,
    /// The deadline that its call armed.
    pub until: Option<u64>,
    /// The number of its note.
    pub noted: u32,
}

impl Seeker {
    /// The same as one who waits for this.
    pub fn seeks(&self, ask: Ask) -> Waiter
        ensures { result ≡ seeks self.now ask }
    {
        Waiter {
            thread: self.thread,
            priority: self.priority,
            ask,
            bytes: Piece::new(),
            until: self.until,
        }
    }
}
