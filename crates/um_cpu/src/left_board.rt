//! What a closed board has at its sites.

ghost use Rattle.std.specs.Prelude.{◌≡◌, ◌<◌, MatchOption};
ghost use Rattle.std.specs.Mem.Slots.{slots_items};
ghost use lib.ListN.{get_elem?};
ghost use Rattle.um_board.specs.{Kept.{cell_of}, Turned.{kind_of}};
ghost use Rattle.um_cpu.specs.Standing.{IsReadable};
ghost use Rattle.um_fine.specs.Cells.{Cell};
ghost use Rattle.um_history.specs.Left.{in_slot};
ghost use Rattle.um_tables.specs.ObjectCells.{cleared, kept_in};
ghost use Rattle.um_words.specs.declared.kind.CellKind.{CellKind};

use um_base::{Mode, Parts};
use um_board::{Contents, Kept};
use um_closing::ReadSites;
use um_machine::Life;
use um_site::Closed;
use um_tables::{Bytes, Heap, Joins, ObjectCell, Scheduler};
use um_words::{RowWord, ThreadWord};

/// The site of the first thread.
const FIRST_THREAD: u16 = 128;

/// The slots of the cells of the first domain, of the memory, the heap, the scheduler and the joins.
const FIRST_DOMAIN: u16 = 128;

const MEMORY: u16 = 136;

const HEAP: u16 = 137;

const SCHEDULER: u16 = 138;

const JOINS: u16 = 140;

/// The word of a thread index where nothing was started.
const UNBORN: ThreadWord = ThreadWord {
    life: Life::Unborn,
    doomed: false,
    held: false,
    mode: Mode::User,
    domain: 0,
    aborted: false,
    suspended: false,
    note: None,
    number: 0,
};

/// The cell of an object, which is kept here. `None` stands for one that keeps nothing.
fn object_in(kept: &Kept) -> Option<&ObjectCell>
    requires { kind_of (cell_of kept.now) ≡ CellKind.Object }
    ensures { MatchOption result (cell_of kept.now ≡ Cell.object (kept_in (cleared 0)))
        (λ cell. cell_of kept.now ≡ Cell.object (kept_in cell.now)) }
{
    match kept {
        Kept::Object(room) => room.cell(),
        _ => unreachable!(),
    }
}

/// The bytes of the memory, which are kept here.
fn memory_in(kept: &Kept) -> &Bytes
    requires { kind_of (cell_of kept.now) ≡ CellKind.Memory }
    ensures { cell_of kept.now ≡ Cell.memory result.now }
{
    match kept {
        Kept::Memory(bytes) => bytes,
        _ => unreachable!(),
    }
}

/// The contents of the heap, which are kept here.
fn heap_in(kept: &Kept) -> &Heap
    requires { kind_of (cell_of kept.now) ≡ CellKind.Heap }
    ensures { cell_of kept.now ≡ Cell.heap result.now }
{
    match kept {
        Kept::Heap(heap) => heap,
        _ => unreachable!(),
    }
}

/// The contents of the scheduler's cell, which are kept here.
fn scheduler_in(kept: &Kept) -> &Scheduler
    requires { kind_of (cell_of kept.now) ≡ CellKind.Scheduler }
    ensures { cell_of kept.now ≡ Cell.scheduler result.now }
{
    match kept {
        Kept::Scheduler(scheduler) => scheduler,
        _ => unreachable!(),
    }
}

/// The contents of the joins' cell, which are kept here.
fn joins_in(kept: &Kept) -> &Joins
    requires { kind_of (cell_of kept.now) ≡ CellKind.Join }
    ensures { cell_of kept.now ≡ Cell.joins result.now }
{
    match kept {
        Kept::Joins(joins) => joins,
        _ => unreachable!(),
    }
}

/// A closed board on which processors have played, read where it lies.
#[derive(Drop)]
pub struct LeftBoard<'a> {
    closed: &'a Closed<Contents>,
    ghost readable: { IsReadable closed.now },
}

impl<'a> LeftBoard<'a> {
    /// Reads this board.
    pub fn new(closed: &'a Closed<Contents>) -> LeftBoard<'a>
        requires { IsReadable closed.now }
        ensures { result.closed.now ≡ closed.now }
    {
        LeftBoard { closed }
    }

    /// What a cell keeps, if its slot is filled.
    fn kept(&self, slot: u16) -> Option<&Kept>
        requires { slot < 141 }
        ensures { let there = in_slot (get_elem? (slots_items self.now.closed.now.table.slots) slot) in
            MatchOption result (there ≡ Cell.parts None) (λ kept. there ≡ cell_of kept.now) }
    {
        match self.closed.slot(slot) {
            Some(contents) => Some(contents.kept()),
            None => None,
        }
    }
}

impl<'a> ReadSites for LeftBoard<'a> {
    ghost use Rattle.um_cpu.specs.Standing.{standing};

    ghost sites = { λ b. standing b.closed.now };

    fn read_row(&self, row: usize) -> RowWord {
        RowWord::read(self.closed.word(row as u16))
    }

    fn read_thread(&self, thread: usize) -> ThreadWord {
        match ThreadWord::unpack(self.closed.word(FIRST_THREAD + thread as u16)) {
            Some(word) => word,
            None => UNBORN,
        }
    }

    fn read_parts(&self, domain: usize) -> Option<&Parts> {
        match self.kept(FIRST_DOMAIN + domain as u16) {
            Some(Kept::Parts(cell)) => match &cell.parts {
                Some(parts) => Some(parts),
                None => None,
            },
            _ => None,
        }
    }

    fn read_object(&self, row: usize) -> Option<&ObjectCell> {
        match self.kept(row as u16) {
            Some(kept) => object_in(kept),
            None => unreachable!(),
        }
    }

    fn read_memory(&self) -> &Bytes {
        match self.kept(MEMORY) {
            Some(kept) => memory_in(kept),
            None => unreachable!(),
        }
    }

    fn read_heap(&self) -> &Heap {
        match self.kept(HEAP) {
            Some(kept) => heap_in(kept),
            None => unreachable!(),
        }
    }

    fn read_scheduler(&self) -> &Scheduler {
        match self.kept(SCHEDULER) {
            Some(kept) => scheduler_in(kept),
            None => unreachable!(),
        }
    }

    fn read_joins(&self) -> &Joins {
        match self.kept(JOINS) {
            Some(kept) => joins_in(kept),
            None => unreachable!(),
        }
    }
}
