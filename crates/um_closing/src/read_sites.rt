//! Sites that can be read, wherever they are kept.

ghost use Rattle.std.specs.Prelude.{◌≡◌, ◌<◌, None, Some, MatchOption};
ghost use Rattle.um_base.specs.declared.limits.TheConstants.{DOMAINS, ROWS, THREADS};
ghost use Rattle.um_fine.specs.Steps.{Site};
ghost use Rattle.um_refinement.specs.Fine.{
  bytes_state,
  heap_state,
  joins_state,
  object_state,
  parts_state,
  row_state,
  scheduler_state,
  thread_state,
};
ghost use Rattle.um_tables.specs.ObjectCells.{cleared, kept_in};

use um_base::Parts;
use um_tables::{Bytes, Heap, Joins, ObjectCell, Scheduler, Tables};
use um_words::{RowWord, ThreadWord};

/// Sites at which nobody makes a step any more.
pub trait ReadSites {
    ghost use Rattle.um_fine.specs.{Sites.{SiteState}, Steps.{Site}};

    /// What stands at each site.
    ghost sites: { Self → Site → SiteState };

    /// The word of a row.
    fn read_row(&self, row: usize) -> RowWord
        requires { row < ROWS }
        ensures { result ≡ row_state (sites self.now (Site.row row)) };

    /// The word of a thread.
    fn read_thread(&self, thread: usize) -> ThreadWord
        requires { thread < THREADS }
        ensures { result ≡ thread_state (sites self.now (Site.thread thread)) };

    /// The partitions of a domain, where it is initialised.
    fn read_parts(&self, domain: usize) -> Option<&Parts>
        requires { domain < DOMAINS }
        ensures { MatchOption result (parts_state (sites self.now (Site.parts domain)) ≡ None)
            (λ parts. parts_state (sites self.now (Site.parts domain)) ≡ Some parts.now) };

    /// The cell of a row. `None` stands for one that keeps nothing.
    fn read_object(&self, row: usize) -> Option<&ObjectCell>
        requires { row < ROWS }
        ensures { MatchOption result (object_state (sites self.now (Site.object row)) ≡ kept_in (cleared 0))
            (λ cell. object_state (sites self.now (Site.object row)) ≡ kept_in cell.now) };

    /// The bytes of the memory.
    fn read_memory(&self) -> &Bytes
        ensures { result.now ≡ bytes_state (sites self.now Site.memory) };

    /// The contents of the heap.
    fn read_heap(&self) -> &Heap
        ensures { result.now ≡ heap_state (sites self.now Site.heap) };

    /// The contents of the scheduler's cell.
    fn read_scheduler(&self) -> &Scheduler
        ensures { result.now ≡ scheduler_state (sites self.now Site.scheduler) };

    /// The contents of the joins' cell.
    fn read_joins(&self) -> &Joins
        ensures { result.now ≡ joins_state (sites self.now Site.joins) };
}

impl ReadSites for Tables {
    ghost use Rattle.um_tables.specs.Sited.{state_at};

    ghost sites = { state_at };

    fn read_row(&self, row: usize) -> RowWord {
        *self.row_word(row)
    }

    fn read_thread(&self, thread: usize) -> ThreadWord {
        *self.thread_word(thread)
    }

    fn read_parts(&self, domain: usize) -> Option<&Parts> {
        self.domain_cell(domain)
    }

    fn read_object(&self, row: usize) -> Option<&ObjectCell> {
        self.object_cell(row)
    }

    fn read_memory(&self) -> &Bytes {
        self.memory_cell()
    }

    fn read_heap(&self) -> &Heap {
        self.heap_cell()
    }

    fn read_scheduler(&self) -> &Scheduler {
        self.scheduler_cell()
    }

    fn read_joins(&self) -> &Joins {
        self.joins_cell()
    }
}
