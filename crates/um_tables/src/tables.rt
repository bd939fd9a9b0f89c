//! Sites as tables, at which one call at a time makes a step.

mod looks;
mod steps;

ghost use Rattle.std.specs.{
  Prelude.{◌≡◌, ◌<◌, ◌≤◌, [], MatchOption, None, Some, length, slice_index_or, vec_capacity},
  List.{All},
};
ghost use Rattle.um_base.specs.declared.limits.TheConstants.{DOMAINS, ROWS, THREADS};
ghost use Rattle.um_fine.specs.Answers.{no_row, no_thread};
ghost use Rattle.um_tables.specs.{ObjectCells.{cleared}, Sited.{in_domains, no_domain_cell}};

use crate::bytes::Bytes;
use crate::clock::Clock;
use crate::domain_cell::DomainCell;
use crate::heap::Heap;
use crate::joins::Joins;
use crate::object_cell::ObjectCell;
use crate::object_cells::ObjectCells;
use crate::scheduler::Scheduler;
use crate::table_parts::TableParts;
use std::marker::Model;
use um_base::{Event, Parts};
use um_words::{DomWord, RowWord, ThreadWord};

/// The greatest step number. A cell that has reached it takes no step.
const LAST: u32 = 0xfff_ffff;

/// The words of all rows, thread indices and domains; the cells of domains and of objects, and those of memory, the heap, the scheduler, the
/// clock and the joins; and the events of all steps in their order. If there is no room for one more event, no step is made that may show
/// one. The clock has room for as many marks as the log has for events.
#[derive(Drop)]
pub struct Tables {
    rows: Vec<RowWord>,
    threads: Vec<ThreadWord>,
    domains: Vec<DomWord>,
    domain_cells: Vec<DomainCell>,
    objects: ObjectCells,
    /// The bytes of the read-only data, which no step changes.
    rodata: Vec<u8>,
    memory: Bytes,
    /// How many steps the memory's cell has taken, below 2^28.
    memory_steps: u32,
    heap: Heap,
    /// How many steps the heap's cell has taken, below 2^28.
    heap_steps: u32,
    scheduler: Scheduler,
    /// How many steps the scheduler's cell has taken, below 2^28.
    scheduler_steps: u32,
    clock: Clock,
    /// How many steps the clock's cell has taken, below 2^28.
    clock_steps: u32,
    joins: Joins,
    /// How many steps the joins' cell has taken, below 2^28.
    joins_steps: u32,
    log: Vec<Event>,
}

impl Model for Tables {
    ghost use Rattle.std.specs.{Prelude.{◌≡◌, ◌<◌, ◌≤◌, length, vec_capacity}, List.{All}};
    ghost use Rattle.um_base.specs.declared.limits.TheConstants.{DOMAINS, ROWS, THREADS};
    ghost use Rattle.um_tables.specs.Sited.{Sited, in_domains};

    ghost Value = { Sited };

    ghost view = { λ t. record {
      rows = t.rows.items;
      threads = t.threads.items;
      domains = t.domains.items;
      domain_cells = t.domain_cells.items;
      objects = t.objects;
      rodata = t.rodata.items;
      memory = t.memory;
      memory_steps = t.memory_steps;
      heap = t.heap;
      heap_steps = t.heap_steps;
      scheduler = t.scheduler;
      scheduler_steps = t.scheduler_steps;
      clock = t.clock.clock;
      clock_steps = t.clock_steps;
      joins = t.joins;
      joins_steps = t.joins_steps;
      log = t.log.items;
      most = vec_capacity t.log;
    } };

    ghost invariant = { λ t. (length t.rows.items ≡ ROWS) × (length t.threads.items ≡ THREADS)
        × (length t.domains.items ≡ DOMAINS) × (length t.domain_cells.items ≡ DOMAINS)
        × (length t.objects ≡ ROWS) × All in_domains t.threads.items
        × (length t.clock.clock.marks ≤ length t.log.items) × (vec_capacity t.log ≤ t.clock.most)
        × (length t.clock.clock.marks ≤ t.clock_steps) };
}

impl Tables {
    /// Makes tables from these words and cells, with this log. The cells of memory, the heap, the scheduler, the clock and the joins have taken
    /// no step, and nothing is armed.
    pub fn new(
        rows: Vec<RowWord>,
        threads: Vec<ThreadWord>,
        domains: Vec<DomWord>,
        domain_cells: Vec<DomainCell>,
        objects: ObjectCells,
        rodata: Vec<u8>,
        memory: Bytes,
        heap: Heap,
        scheduler: Scheduler,
        clock: Clock,
        joins: Joins,
        log: Vec<Event>,
    ) -> Tables
        requires rows { length rows.items ≡ ROWS }
        requires threads { length threads.items ≡ THREADS }
        requires domains { length domains.items ≡ DOMAINS }
        requires cells { length domain_cells.items ≡ DOMAINS }
        requires objects { length objects ≡ ROWS }
        requires named { All in_domains threads.items }
        requires armed { clock.clock.marks ≡ [] }
        requires room { vec_capacity log ≤ clock.most }
        ensures { result ≡ record {
          rows = rows.items;
          threads = threads.items;
          domains = domains.items;
          domain_cells = domain_cells.items;
          objects = objects;
          rodata = rodata.items;
          memory = memory;
          memory_steps = 0;
          heap = heap;
          heap_steps = 0;
          scheduler = scheduler;
          scheduler_steps = 0;
          clock = clock.clock;
          clock_steps = 0;
          joins = joins;
          joins_steps = 0;
          log = log.items;
          most = vec_capacity log;
        } }
    {
        Tables {
            rows,
            threads,
            domains,
            domain_cells,
            objects,
            rodata,
            memory,
            memory_steps: 0,
            heap,
            heap_steps: 0,
            scheduler,
            scheduler_steps: 0,
            clock,
            clock_steps: 0,
            joins,
            joins_steps: 0,
            log,
        }
    }

    /// The word of a row.
    pub fn row_word(&self, row: usize) -> &RowWord
        requires { row < ROWS }
        ensures { result.now ≡ slice_index_or self.now.rows row no_row }
    {
        &self.rows[row]
    }

    /// The word of a thread.
    pub fn thread_word(&self, thread: usize) -> &ThreadWord
        requires { thread < THREADS }
        ensures { result.now ≡ slice_index_or self.now.threads thread no_thread }
    {
        &self.threads[thread]
    }

    /// The partitions in the cell of a domain, where it is initialised.
    pub fn domain_cell(&self, domain: usize) -> Option<&Parts>
        ensures { let cell = slice_index_or self.now.domain_cells domain no_domain_cell in
            MatchOption result (cell.parts ≡ None) (λ parts. cell.parts ≡ Some parts.now) }
    {
        match self.domain_cells.get(domain) {
            Some(
                DomainCell {
                    parts: Some(parts),
                    steps: _,
                },
            ) => Some(parts),
            _ => None,
        }
    }

    /// The cell of a row, if it was ever asked for. If not, the cell keeps nothing.
    pub fn object_cell(&self, row: usize) -> Option<&ObjectCell>
        requires { row < ROWS }
        ensures { MatchOption result (slice_index_or self.now.objects row (cleared 0) ≡ cleared 0)
            (λ cell. slice_index_or self.now.objects row (cleared 0) ≡ cell.now) }
    {
        self.objects.row(row)
    }

    /// The contents of the memory's cell.
    pub fn memory_cell(&self) -> &Bytes
        ensures { result.now ≡ self.now.memory }
    {
        &self.memory
    }

    /// The contents of the heap's cell.
    pub fn heap_cell(&self) -> &Heap
        ensures { result.now ≡ self.now.heap }
    {
        &self.heap
    }

    /// The contents of the scheduler's cell.
    pub fn scheduler_cell(&self) -> &Scheduler
        ensures { result.now ≡ self.now.scheduler }
    {
        &self.scheduler
    }

    /// The contents of the clock's cell.
    pub fn clock_cell(&self) -> &Clock
        ensures { result.now.clock ≡ self.now.clock }
    {
        &self.clock
    }

    /// The contents of the joins' cell.
    pub fn joins_cell(&self) -> &Joins
        ensures { result.now ≡ self.now.joins }
    {
        &self.joins
    }

    /// The events of all steps, in their order.
    pub fn events(&self) -> &[Event]
        ensures { result.now ≡ self.now.log }
    {
        self.log.as_slice()
    }

    /// The same, and drops the tables.
    pub fn into_events(self) -> Vec<Event>
        ensures { result.items ≡ self.log }
    {
        self.log
    }

    /// What the sites keep. Drops the tables.
    pub fn into_parts(self) -> TableParts
        ensures rows { result.rows.items ≡ self.rows }
        ensures threads { result.threads.items ≡ self.threads }
        ensures domains { result.domains.items ≡ self.domains }
        ensures cells { result.domain_cells.items ≡ self.domain_cells }
        ensures objects { result.objects ≡ self.objects }
        ensures memory { result.memory ≡ self.memory }
        ensures heap { result.heap ≡ self.heap }
        ensures scheduler { result.scheduler ≡ self.scheduler }
        ensures clock { result.clock.clock ≡ self.clock }
        ensures joins { result.joins ≡ self.joins }
    {
        TableParts {
            rows: self.rows,
            threads: self.threads,
            domains: self.domains,
            domain_cells: self.domain_cells,
            objects: self.objects,
            memory: self.memory,
            heap: self.heap,
            scheduler: self.scheduler,
            clock: self.clock,
            joins: self.joins,
        }
    }
}
