//! Why a description is refused.

ghost use Rattle.std.specs.Prelude.{◌≡◌};
ghost use Rattle.um_document.specs.declared.fault.ImageFault.TheVariants.{Memory};

use crate::spot::Spot;
use std::alloc::{AllocError, AllocFailed};
use um_script::LineKind;

/// Why a description is refused, and where: its first fault. The kinds are tried in this order over the whole document.
#[derive(Drop)]
pub enum ImageFault {
    /// The bytes are no TOML document.
    NotToml,
    /// `version` isn't the integer 1 or 2.
    Version,
    /// A required key, or one of two that go together, is absent.
    MissingKey(Spot),
    /// A value has another type, or its hexadecimal digits are wrong.
    WrongType(Spot),
    /// A key has no meaning at its place.
    UnknownKey(Spot),
    /// A name isn't lawful, a word isn't one of those that may stand there, or `align` isn't one of its six numbers.
    BadName(Spot),
    /// A name was given before, a partition stands twice in a domain, or a thread or a stack in two boot entries.
    Duplicate(Spot),
    /// A name names nothing of the kind wanted, or a boot entry's domain isn't initialised.
    UnknownName(Spot),
    /// A count or a number is out of its range, past the end `number`.
    Limit {
        counted: Spot,
        number: i64,
        spot: Spot,
    },
    /// A script line can't be read.
    Line {
        kind: LineKind,
        spot: Spot,
        column: u32,
    },
    /// A `repeat` inside a `repeat`, without `end`, or with no line before its `end`; or an `end` without `repeat`.
    Block(Spot),
    /// A name in a line names nothing of the kind wanted.
    LineName {
        spot: Spot,
        column: u32,
    },
    /// A line names a script that doesn't stand after its own.
    ScriptOrder(Spot),
    /// The weight exceeds the greatest one.
    Weight,
    /// The partitions, or the stacks, need more bytes than their area has.
    Layout {
        stacks: bool,
        need: u32,
        have: u32,
    },
    /// Memory ran out, which says nothing of the description.
    Memory,
}

impl From<AllocError> for ImageFault {
    ghost from_gives = { λ _ e. e ≡ Memory };

    fn from(_e: AllocError) -> ImageFault {
        ImageFault::Memory
    }
}

impl<T: Drop> From<AllocFailed<T>> for ImageFault {
    ghost from_gives = { λ _ e. e ≡ Memory };

    fn from(_e: AllocFailed<T>) -> ImageFault {
        ImageFault::Memory
    }
}

impl From<um_base::OutOfMemory> for ImageFault {
    ghost from_gives = { λ _ e. e ≡ Memory };

    fn from(_e: um_base::OutOfMemory) -> ImageFault {
        ImageFault::Memory
    }
}
