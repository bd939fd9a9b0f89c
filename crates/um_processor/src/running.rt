//! The thread that a processor runs.

mod accesses;
mod acts;
mod calls;
mod copies;
mod domains;
mod ends;
mod errands;
mod events;
mod go;
mod heaps;
mod lines;
mod marked;
mod marks;
mod memory;
mod next;
mod requests;
mod rights;
mod show;
mod sleeps;
mod stops;
mod timed;
mod turns;
mod visits;
mod works;

ghost use Rattle.std.specs.Prelude.{◌≡◌, ◌<◌, Some, IfOk, if◌then◌else◌};
ghost use Rattle.um_base.specs.declared.limits.TheConstants.{THREADS};
ghost use Rattle.um_fine.specs.Processor.{idle};
ghost use Rattle.um_processor.specs.{Phases.{is_idle, lacks_thread}, Processors.{processor_of}};

use crate::phase::Phase;
pub use calls::Wanted;
pub use next::row_named;
use std::alloc::Global;
use um_base::{Ask, OutOfMemory, Parts, Piece, Reply, Row, ThreadIx, Told, Waiter};
use um_fine::{Table, TableKey};
use um_machine::Cost;
use um_tables::{Context, NOBODY, Newborn};
use um_words::Mark;

/// The thread of a processor, how far it is with its next step, and what steps told it.
#[derive(Drop)]
pub struct Running {
    phase: Phase,
    context: Box<Context>,
    /// Whether visits of rows came before its next step.
    visited: bool,
    /// The row to visit next.
    row: u8,
    /// The row of the queue whose message size it looks at.
    queue: u8,
    /// The thread that it starts.
    newborn: Newborn,
    /// The first phase of its next step, behind the visits.
    next: Phase,
    /// The site of the cell in which its call may wait.
    cell: u16,
    /// A deadline, and what it was armed for: of the act that it makes, or of the mark in its hand.
    deadline: u64,
    mark: Mark,
    /// Whether the mark is settled behind the act.
    settles: bool,
    /// Whether the thread's word is read once more behind that.
    rereads: bool,
    /// Who is looked for, at which site, and below which number of its note.
    sought: u8,
    place: u16,
    before: u32,
    /// The phase that comes behind an errand.
    after: Phase,
    /// What its thread was told where it waited.
    told: Told,
    /// Room for a new thread.
    room: Box<Context>,
    /// Whether the table was ever loaded.
    loaded: bool,
    table: Table,
    /// The domain of its thread when that was held, and the version of the domain when it was claimed.
    domain: u8,
    version: u32,
    /// What a domain's call answers.
    reply: Reply,
    /// The size of a queue's messages.
    size: u32,
    /// What the buffer cost of the object that it cleans.
    charge: Option<Cost>,
    /// The thread of the last event that it made.
    actor: Option<u8>,
    /// Room for its thread as the caller of a call.
    caller: Waiter,
    /// Room for the bytes of a step at the memory.
    spare: Piece,
}

/// No caller.
fn no_caller() -> Waiter {
    Waiter {
        thread: ThreadIx(0),
        priority: 0,
        ask: Ask::SemGive,
        bytes: Piece::new(),
        until: None,
    }
}

/// A region table into which nothing was loaded.
fn no_table() -> Table {
    Table {
        key: TableKey {
            thread: 0,
            stack: 0,
            user: false,
            domain: 0,
            version: 0,
        },
        parts: Parts::new(),
    }
}

impl Running {
    /// Makes the state of a processor without a thread, with room for one and for a thread that it starts.
    pub fn new(alloc: Global) -> Result<Running, OutOfMemory>
        ensures { IfOk result (λ r. processor_of r ≡ idle) }
    {
        Ok(Running {
            phase: Phase::Idle,
            context: Box::new(alloc, Context::idle())?,
            visited: false,
            row: 0,
            queue: 0,
            newborn: NOBODY,
            next: Phase::Show,
            cell: 0,
            deadline: 0,
            mark: Mark::Timer(Row(0)),
            settles: false,
            rereads: false,
            sought: 0,
            place: 0,
            before: 0,
            after: Phase::Open,
            told: Told {
                reply: Reply::Void,
                taken: Piece::new(),
            },
            room: Box::new(alloc, Context::idle())?,
            loaded: false,
            table: no_table(),
            domain: 0,
            version: 0,
            reply: Reply::Void,
            size: 0,
            charge: None,
            actor: None,
            caller: no_caller(),
            spare: Piece::new(),
        })
    }

    /// Whether it has no thread.
    pub fn is_idle(&self) -> bool
        ensures { result ≡ is_idle self.now.phase }
    {
        match self.phase {
            Phase::Idle => true,
            _ => false,
        }
    }

    /// How far it is with its thread's next step.
    pub fn phase(&self) -> Phase
        ensures { result ≡ self.now.phase }
    {
        self.phase
    }

    /// The row to visit next.
    pub fn row(&self) -> u8
        ensures { result ≡ self.now.row }
    {
        self.row
    }

    /// Its thread.
    pub fn thread(&self) -> ThreadIx
        ensures value { result.0 ≡ self.now.context.value.thread }
        ensures small { result.0 < THREADS }
    {
        ThreadIx(self.context.thread())
    }

    /// Whether it has no thread. It may have a mark in its hand then.
    fn lacks_thread(&self) -> bool
        ensures { result ≡ lacks_thread self.now.phase }
    {
        match self.phase {
            Phase::Idle | Phase::Handle | Phase::Paid => true,
            _ => false,
        }
    }

    /// The thread by which it cleans objects: its own, or the first one where it has none.
    #[tactic(auto, using(crate::proofs::Errands::own_kept, crate::proofs::Errands::none_own))]
    pub fn cleaner(&self) -> ThreadIx
        ensures { result.0 ≡ (processor_of self.now).context.thread }
    {
        if self.lacks_thread() {
            ThreadIx(0)
        } else {
            ThreadIx(self.context.thread())
        }
    }

    /// It made an event by this thread, unless it only looked.
    pub fn acts_unless(&mut self, looked: bool, thread: ThreadIx)
        ensures { self.new ≡ record self.old { actor = if looked then self.old.actor else Some (thread.0) } }
    {
        if !looked {
            self.actor = Some(thread.0);
        }
    }

    /// It made an event by this thread.
    pub fn acts(&mut self, thread: ThreadIx)
        ensures { self.new ≡ record self.old { actor = Some (thread.0) } }
    {
        self.actor = Some(thread.0);
    }

    /// What the buffer cost of the object that it cleans.
    pub fn charge(&self) -> Option<Cost>
        ensures { result ≡ self.now.charge }
    {
        self.charge
    }

    pub fn set_charge(&mut self, charge: Option<Cost>)
        ensures { self.new ≡ record self.old { charge = charge } }
    {
        self.charge = charge;
    }
}
