//! What a processor asks of the memory's cell.

ghost use Rattle.std.specs.Prelude.{◌≡◌, Some};
ghost use Rattle.um_tables.specs.MemoryActs.{memory_event};

use um_base::{Access, Act, Addr, Event, Found, Row, ThreadIx};
use um_words::shown;

/// A step that a processor asks of the memory's cell, with the thread that makes it. Its region table has already said whether it may.
#[derive(Clone, Copy)]
pub enum MemoryAct {
    /// At most four bytes.
    Load {
        thread: ThreadIx,
        addr: Addr,
        size: u32,
    },
    Store {
        thread: ThreadIx,
        addr: Addr,
        size: u32,
        value: u32,
    },
    Fetch {
        thread: ThreadIx,
        addr: Addr,
    },
    /// An access that isn't allowed.
    Fault {
        thread: ThreadIx,
        access: Access,
        addr: Addr,
        size: u32,
    },
    Probe {
        thread: ThreadIx,
        addr: Addr,
        size: u32,
        fits: bool,
    },
    /// A copy from memory, if that is allowed.
    CopyIn {
        thread: ThreadIx,
        addr: Addr,
        size: u32,
        fits: bool,
    },
    /// A copy to memory, if that is allowed.
    CopyOut {
        thread: ThreadIx,
        addr: Addr,
        size: u32,
        fits: bool,
    },
    /// A copy of a text of at most 32 bytes, of which the thread may read `readable` one by one.
    CopyStr {
        thread: ThreadIx,
        addr: Addr,
        readable: u32,
    },
    /// Zero bytes over the thread stack of a row.
    Erase {
        thread: ThreadIx,
        stack: Row,
    },
}

/// What the memory's cell says.
#[derive(Clone, Copy, PartialEq, Eq)]
pub struct MemorySaid {
    /// The value of a load.
    pub value: u32,
    /// What the copy of a text found.
    pub found: Found,
}

impl MemoryAct {
    /// The event of the step, by what the cell says. A trace shows each.
    pub fn event(&self, said: &MemorySaid) -> Option<Event>
        ensures { result ≡ Some (memory_event self.now said.now) }
    {
        match *self {
            MemoryAct::Load { thread, addr, size } => {
                let value = said.value;
                shown(thread, Act::Load { addr, size, value })
            }
            MemoryAct::Store {
                thread,
                addr,
                size,
                value,
            } => shown(thread, Act::Store { addr, size, value }),
            MemoryAct::Fetch { thread, addr } => shown(thread, Act::Fetch { addr }),
            MemoryAct::Fault {
                thread,
                access,
                addr,
                size,
            } => shown(thread, Act::Fault { access, addr, size }),
            MemoryAct::Probe {
                thread,
                addr,
                size,
                fits,
            } => shown(thread, Act::Probe { addr, size, fits }),
            MemoryAct::CopyIn {
                thread,
                addr,
                size,
                fits,
            } => shown(thread, Act::CopyIn { addr, size, fits }),
            MemoryAct::CopyOut {
                thread,
                addr,
                size,
                fits,
            } => shown(thread, Act::CopyOut { addr, size, fits }),
            MemoryAct::CopyStr { thread, addr, .. } => {
                let found = said.found;
                shown(thread, Act::CopyStr { addr, found })
            }
            MemoryAct::Erase { thread, stack } => shown(thread, Act::Erase { stack }),
        }
    }
}
