//! What may be wrong with a description whose form is right.

use um_document::{Key, Place};
use um_script::LineKind;

/// What is counted where a limit is passed.
#[derive(Clone, Copy, PartialEq, Eq)]
pub enum Counted {
    /// The numbers at a key, or the entries of the section at it.
    Key(Key),
    /// The objects of kind thread.
    Threads,
}

/// What is wrong, and where. The kinds are tried in this order over the whole description.
#[derive(Clone, Copy, PartialEq, Eq)]
pub enum Flaw {
    /// A name was given before, a partition stands twice in a domain, a thread or a stack in two boot entries, or two
    /// futexes have one address.
    Duplicate(Place),
    /// A name names nothing of the kind wanted, or a boot entry's domain isn't initialised.
    UnknownName(Place),
    /// A count or a number is out of its range, past the end `number`.
    Limit {
        counted: Counted,
        number: i64,
        place: Place,
    },
    /// A script line can't be read.
    Line {
        kind: LineKind,
        place: Place,
        column: u32,
    },
    /// A `repeat` inside a `repeat`, without `end`, or with no line before its `end`; or an `end` without `repeat`.
    Block(Place),
    /// A name in a line names nothing of the kind wanted.
    LineName {
        place: Place,
        column: u32,
    },
    /// A line names a script that doesn't stand after its own.
    ScriptOrder(Place),
    /// The weight exceeds the greatest one.
    Weight,
    /// The partitions, or the stacks, need more bytes than their area has.
    Layout {
        stacks: bool,
        need: u32,
        have: u32,
    },
}
