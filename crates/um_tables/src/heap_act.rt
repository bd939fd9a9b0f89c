//! What a processor asks of the heap's cell.

ghost use Rattle.std.specs.Prelude.{◌≡◌, Some};
ghost use Rattle.um_tables.specs.HeapActs.{heap_event};

use um_base::{Act, Addr, Event, Kind, ThreadIx};
use um_words::shown;

/// A step that a processor asks of the heap's cell, with the thread that makes it.
#[derive(Clone, Copy)]
pub enum HeapAct {
    /// Reserves an address for an object of this kind, if its pool pays.
    Reserve { thread: ThreadIx, kind: Kind },
    /// Takes a buffer, if the pool pays.
    Buffer { thread: ThreadIx, size: u32 },
    /// Gives a buffer back that isn't needed after all.
    Unbuffer { thread: ThreadIx, size: u32 },
    /// Recycles an object that was cleaned. Its pool gets back what it and its buffer cost.
    Recycle { thread: ThreadIx, addr: Addr },
}

/// What the heap's cell says.
#[derive(Clone, Copy, PartialEq, Eq)]
pub struct HeapSaid {
    /// The address that was reserved.
    pub addr: Option<Addr>,
    /// Whether the pool pays for a buffer.
    pub fits: bool,
}

impl HeapAct {
    /// The event of the step, by what the cell says. A trace shows each.
    pub fn event(&self, said: &HeapSaid) -> Option<Event>
        ensures { result ≡ Some (heap_event self.now said.now) }
    {
        match *self {
            HeapAct::Reserve { thread, kind } => {
                let addr = said.addr;
                shown(thread, Act::Reserve { kind, addr })
            }
            HeapAct::Buffer { thread, size } => {
                let fits = said.fits;
                shown(thread, Act::Buffer { size, fits })
            }
            HeapAct::Unbuffer { thread, size } => shown(thread, Act::Unbuffer { size }),
            HeapAct::Recycle { thread, addr } => shown(thread, Act::Recycle { addr }),
        }
    }
}
