//! Which waiters an act serves.

ghost use Rattle.std.specs.Prelude.{◌≡◌};
ghost use Rattle.um_machine.specs.Serving.{serves};

use um_base::{Ask, Waiter};

/// Which of those who wait on an object an act serves.
#[derive(Clone, Copy, PartialEq, Eq)]
pub enum Served {
    /// All of them.
    All,
    /// Those who get a message.
    Getters,
    /// Those who put a message.
    Putters,
    /// Those who read a pipe.
    Readers,
    /// Those who write to a pipe.
    Writers,
}

impl Served {
    /// Whether an act serves a waiter.
    pub fn serves(self, waiter: &Waiter) -> bool
        ensures { result ≡ serves self waiter.now }
    {
        match self {
            Served::All => true,
            Served::Getters => matches!(waiter.ask, Ask::MsgqGet { .. }),
            Served::Putters => matches!(waiter.ask, Ask::MsgqPut { .. }),
            Served::Readers => matches!(waiter.ask, Ask::PipeRead { .. }),
            Served::Writers => matches!(waiter.ask, Ask::PipeWrite { .. }),
        }
    }
}
