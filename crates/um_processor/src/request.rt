//! Steps of whose result a processor needs to know only that they were made, as data.

ghost use Rattle.std.specs.Prelude.{IsTrue};
ghost use Rattle.um_processor.specs.Requests.{Each, RequestedAt, is_short};

use crate::phase::{Phase, Turn};
use crate::turns::made;
use um_base::{DOMAINS, Piece, ROWS, Row, THREADS, ThreadIx};
use um_machine::Cost;
use um_tables::{HeapAct, Here, MemoryAct, Sites, empties};
use um_words::{DomainAct, RowAct, ThreadAct};

/// A step at a site, of which the processor needs no answer.
#[derive(Clone, Copy)]
pub enum Request {
    Row(Row, RowAct),
    Thread(ThreadIx, ThreadAct),
    Domain(u8, DomainAct),
    /// A step at the heap, with what a pool pays or gets back.
    Heap(HeapAct, Option<Cost>),
    /// A step at the memory that copies no bytes to or from the buffer.
    Memory(MemoryAct),
    /// A thread stops running for good.
    Done,
}

/// How a processor goes on after such a step.
#[derive(Clone, Copy, PartialEq, Eq)]
pub enum Onward {
    /// After the event of a step the thread goes on as it is ..
    GoesOn,
    /// .. or after an access that isn't allowed, with a fault or a failed call ..
    Faults,
    CopyFails,
    /// .. or with the reply of a domain's call ..
    Replies,
    /// .. or in user mode, at this script ..
    EntersUser(u8),
    /// .. or with the doom of the thread with the next index.
    Dooms(u8),
    /// The thread's next step is over.
    Expands,
    /// The thread's act is over, behind which a mark may have to be settled, and its word to be read.
    EndsAct,
    /// Its next fine step is that of a phase.
    To(Phase),
}

impl Request {
    /// Asks the site for the step. `spare` is room for bytes, and may hold any.
    #[inline(always)]
    pub fn make<S: Sites>(&self, here: &Here, spare: &mut Piece, sites: &mut S) -> Turn
        requires image { S.IsOf here.now.image.now sites.old }
        requires few { IsTrue (is_short self.now) }
        requires goes { Each here.now.cpu here.now.image.now self.now (S.May here.now.image.now sites.old) }
        ensures image { S.IsOf here.now.image.now sites.new }
        ensures said { RequestedAt S.Sites result here.now self.now sites.old sites.new }
    {
        match self {
            Request::Row(row, act) => {
                if row.0 as usize >= ROWS {
                    return Turn::Stuck;
                }
                made!(sites.row(here, *row, act));
                Turn::Made
            }
            Request::Thread(thread, act) => {
                if thread.0 as usize >= THREADS {
                    return Turn::Stuck;
                }
                made!(sites.thread(here, *thread, act));
                Turn::Made
            }
            Request::Domain(domain, act) => {
                if *domain as usize >= DOMAINS {
                    return Turn::Stuck;
                }
                made!(sites.domain(here, *domain, act));
                Turn::Made
            }
            Request::Heap(act, charge) => {
                made!(sites.heap(here, act, *charge));
                Turn::Made
            }
            Request::Memory(act) => {
                empties(spare);
                made!(sites.memory(here, act, spare));
                Turn::Made
            }
            Request::Done => {
                made!(sites.done(here));
                Turn::Made
            }
        }
    }
}
