//! The contents of a cell of a board.

ghost use Rattle.std.specs.Prelude.{◌≡◌, ℕ};
ghost use Rattle.um_fine.specs.Cells.{cell_word, quiet_word};
ghost use Rattle.um_board.specs.Kept.{HasRoom, cell_of, room_of};

use crate::object_room::ObjectRoom;
use std::marker::Model;
use std::snapshot::Snapshot;
use um_base::Image;
use um_tables::{Bytes, Clock, DomainCell, Heap, Joins, Scheduler};
use um_words::Content;

/// What a cell keeps: the contents of an object, a domain, the memory, the heap, the scheduler, the clock or the joins. The cell's word counts
/// its steps; the counts inside an object's and a domain's contents aren't used.
#[derive(Drop)]
pub enum Kept {
    Object(ObjectRoom),
    Parts(Box<DomainCell>),
    Memory(Box<Bytes>),
    Heap(Box<Heap>),
    Scheduler(Box<Scheduler>),
    Clock(Box<Clock>),
    Joins(Box<Joins>),
}

/// What the word of a cell counts beside its steps.
#[derive(Clone, Copy)]
pub struct Counts {
    /// Ready threads, at most 32.
    pub ready: u8,
    /// Threads that processors run.
    pub running: u8,
    /// Marks that are owed, below 2^19.
    pub owed: u32,
}

/// What the words of all cells count but that of the scheduler.
const NONE: Counts = Counts {
    ready: 0,
    running: 0,
    owed: 0,
};

/// What a cell of an image's board keeps. A clock has room for more marks than the image's weight. The image is ghost data.
#[derive(Drop)]
pub struct Contents {
    image: Snapshot<Image>,
    kept: Kept,
}

impl Model for Contents {
    ghost use Rattle.um_board.specs.{Contents.{Known}, Kept.{HasRoom, cell_of, room_of}};

    ghost Value = { Known };

    ghost view = { λ c. record { image = c.image.value; cell = cell_of c.kept } };

    ghost invariant = { λ c. HasRoom c.image.value (room_of c.kept) };
}

impl Content for Contents {
    ghost use Rattle.um_board.specs.Contents.{Follows, Opens};

    ghost opens = { Opens };

    ghost follows = { Follows };
}

impl Contents {
    /// Makes what a cell of this image's board keeps.
    pub fn new(image: &Image, kept: Kept) -> Contents
        requires { HasRoom image.now (room_of kept) }
        ensures { result ≡ record { image = image.now; cell = cell_of kept } }
    {
        Contents {
            image: Snapshot::of(image),
            kept,
        }
    }

    /// The numbers of ready threads, of running threads and of owed marks that the cell's word counts: 0 for all cells but the scheduler's.
    pub fn counts(&self) -> Counts
        ensures { (number : ℕ) → cell_word self.now.cell number ≡ quiet_word result.ready result.running result.owed number }
    {
        match &self.kept {
            Kept::Scheduler(scheduler) => Counts {
                ready: scheduler.ready(),
                running: scheduler.running(),
                owed: scheduler.owed(),
            },
            Kept::Object(_) | Kept::Parts(_) | Kept::Memory(_) | Kept::Heap(_) => NONE,
            Kept::Clock(_) | Kept::Joins(_) => NONE,
        }
    }

    /// What is kept, to be read.
    pub fn kept(&self) -> &Kept
        ensures { self.now.cell ≡ cell_of result.now }
    {
        &self.kept
    }

    /// What is kept.
    pub(crate) fn into_kept(self) -> Kept
        ensures cell { self.cell ≡ cell_of result }
        ensures room { HasRoom self.image (room_of result) }
    {
        let Contents { image: _, kept } = self;
        kept
    }
}
