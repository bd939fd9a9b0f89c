//! What the calls answer.

ghost use Rattle.std.specs.Prelude.{◌≡◌};
ghost use Rattle.um_perm.specs.Pairs.{dropped_by, marked_of};

use um_base::{Errno, Given, Leftover, SetSaid};

/// What a call on a row found.
#[derive(Clone, Copy, PartialEq, Eq)]
pub enum Answer {
    Given(Given),
    Passed(Passed),
    Set(Set),
    Dropped(Dropped),
    Done,
}

/// Whether a permission was passed on.
#[derive(Clone, Copy, PartialEq, Eq)]
pub enum Passed {
    Pair,
    Nothing,
}

/// What marking an object as initialised found.
#[derive(Clone, Copy, PartialEq, Eq)]
pub enum Set {
    Done,
    /// It was initialised before, and must not be.
    Already,
    Gone,
}

/// What a drop found and left.
#[derive(Clone, Copy, PartialEq, Eq)]
pub enum Dropped {
    NoPair,
    Kept,
    /// The object lost its last permission, and is gone. `clean` says that no claim is out, and that this seat has to clean the object.
    Gone { clean: bool },
}

impl Set {
    pub fn of(said: SetSaid) -> Set
        ensures { result ≡ marked_of said }
    {
        match said {
            SetSaid::Done => Set::Done,
            SetSaid::Fail(Errno::EADDRINUSE) => Set::Already,
            _ => Set::Gone,
        }
    }
}

impl Dropped {
    /// Clean: the row came to cleaning by the drop.
    pub fn of(left: Leftover, clean: bool) -> Dropped
        ensures { result ≡ dropped_by left clean }
    {
        match left {
            Leftover::NoPair => Dropped::NoPair,
            Leftover::Kept => Dropped::Kept,
            Leftover::Gone => Dropped::Gone { clean },
        }
    }
}
