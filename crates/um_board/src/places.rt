//! Which sites of a board are which. Rows begin at site 0.

/// The first sites of the other sorts.
pub(crate) const THREADS_FROM: u16 = 128;

pub(crate) const DOMAINS_FROM: u16 = 160;

pub(crate) const OBJECTS_FROM: u16 = 168;

pub(crate) const PARTS_FROM: u16 = 296;

/// The sites of the cells of memory, of the heap, of the scheduler, of the clock and of the joins.
pub(crate) const MEMORY: u16 = 304;

pub(crate) const HEAP: u16 = 305;

pub(crate) const SCHEDULER: u16 = 306;

pub(crate) const CLOCK: u16 = 307;

pub(crate) const JOINS: u16 = 308;
