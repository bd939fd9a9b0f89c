//! What tables keep, each part by itself.

use crate::bytes::Bytes;
use crate::clock::Clock;
use crate::domain_cell::DomainCell;
use crate::heap::Heap;
use crate::joins::Joins;
use crate::object_cells::ObjectCells;
use crate::scheduler::Scheduler;
use um_words::{DomWord, RowWord, ThreadWord};

/// The words of all rows, thread indices and domains, the cells of domains and of objects, each by its number, and the contents of the
/// memory, the heap, the scheduler, the clock and the joins. The step counts of these five aren't in it.
#[derive(Drop)]
pub struct TableParts {
    pub rows: Vec<RowWord>,
    pub threads: Vec<ThreadWord>,
    pub domains: Vec<DomWord>,
    pub domain_cells: Vec<DomainCell>,
    pub objects: ObjectCells,
    pub memory: Bytes,
    pub heap: Heap,
    pub scheduler: Scheduler,
    pub clock: Clock,
    pub joins: Joins,
}
