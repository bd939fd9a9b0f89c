//! What the machine keeps of a row.

ghost use Rattle.std.specs.Prelude.{◌≡◌};

use crate::contents::Contents;
use crate::waiters::Waiters;
use um_base::{Kind, ThreadIx};

/// What stands at an object's address.
#[derive(Clone, Copy, PartialEq, Eq)]
pub enum Status {
    /// No object: a dynamic address that can be given, or an unused row.
    Free,
    /// A dynamic address that was given, before the object stands there.
    Reserved,
    /// An object that checks find.
    Live,
    /// A dynamic object that lost its last permission, and is not recycled yet.
    Gone,
}

/// Bytes that a pool paid for.
#[derive(Clone, Copy, PartialEq, Eq)]
pub struct Cost {
    /// The number of the resource pool, 0 to 3.
    pub pool: u8,
    /// A multiple of 8.
    pub bytes: u32,
}

/// An object, or a row without one.
#[derive(Drop)]
pub struct Object {
    /// Its kind. None: no object stands there.
    pub kind: Option<Kind>,
    /// What stands there.
    pub status: Status,
    /// Whether all threads have the permission (`k_object_access_all_grant`).
    pub public: bool,
    /// Whether it is initialised.
    pub init: bool,
    /// What it keeps.
    pub contents: Contents,
    /// The threads that wait on it.
    pub waiters: Waiters,
    /// What a dynamic object itself cost: 64 bytes.
    pub cost: Option<Cost>,
    /// What its buffer cost.
    pub buffer: Option<Cost>,
    /// The thread that cleans it.
    pub cleaner: Option<ThreadIx>,
}

impl Object {
    /// The same once more.
    pub fn copy(&self) -> Object
        ensures { result ≡ self.now }
    {
        Object {
            kind: self.kind,
            status: self.status,
            public: self.public,
            init: self.init,
            contents: self.contents.copy(),
            waiters: self.waiters.copy(),
            cost: self.cost,
            buffer: self.buffer,
            cleaner: self.cleaner,
        }
    }
}
