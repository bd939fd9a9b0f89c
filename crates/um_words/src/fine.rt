//! What a processor does to a site in one step.

use um_base::{Event, Mode, Row, ThreadIx, Timeout};

/// What a site's own step needs beside the event.
#[derive(Clone, Copy)]
pub enum More {
    Nothing,
    /// The mode of the thread that checks, and whether the row has the wanted kind.
    By { mode: Mode, fits: bool },
    /// Whether the object to mark must not be initialised before.
    Strict(bool),
    /// The mode of a new thread, and its domain.
    Starts { mode: Mode, domain: u8 },
    /// Whether the thread may read the address on which it waits, and how long it may wait.
    Waits { allowed: bool, timeout: Timeout },
    /// Whether the thread may read the address that it wakes, and whether it wakes all who wait there.
    Wakes { allowed: bool, all: bool },
}

/// A step that no trace shows.
#[derive(Clone, Copy)]
pub enum Unseen {
    /// A claim of a row ends.
    EndCall,
    /// A look at a row where there is no permission to pass on or to drop.
    Visit,
    /// An object that was cleaned leaves its row.
    Vacate,
    /// A thread is held: its domain stays as it is.
    Hold,
    /// A thread is let go: its domain may change again.
    LetGo,
    /// A domain is claimed for reading: its partitions stay as they are.
    ReadClaim,
    /// A claim to read a domain ends.
    ReadDone,
    /// A domain is claimed for a change of its partitions.
    WriteClaim,
    /// A domain's partitions are read into a region table.
    RegionLoad,
    /// A domain's partitions change.
    Edit,
    /// A look at the size of a queue's messages.
    SizeLook,
    /// The contents of an object that is gone are cleared.
    Wipe,
    /// A new thread gets ready.
    Add(ThreadIx),
    /// A thread is told what woke it. `ready` says whether it then joins the ready list.
    Wake { who: ThreadIx, ready: bool },
    /// The first thread of the ready list is taken.
    Next(ThreadIx),
    /// A thread is put back. `ready` says whether it then joins the ready list.
    Park { who: ThreadIx, ready: bool },
    /// A thread stops running for good, and isn't put back.
    Done,
    /// A thread's word is read.
    WordRead,
    /// A mark is owed, which is armed next.
    Owe,
    /// A mark that was given is handled.
    Paid,
    /// A mark may be given from now on, once its deadline has come.
    Settle,
    /// A mark is given whose deadline has come.
    Due,
    /// What is looked for in a cell isn't there.
    Void,
    /// A thread's word notes the site of the cell in which its call may wait.
    Note(u16),
    /// A suspended thread at rest goes to sleep.
    Sleep,
    /// A thread that sleeps is taken, to get ready.
    Rouse(ThreadIx),
    /// Nobody joins a thread any more.
    Shut(ThreadIx),
    /// A thread that is started next may be joined.
    Unshut(ThreadIx),
    /// A thread that was cut gets ready. `ready` says whether it then joins the ready list.
    Cut { who: ThreadIx, ready: bool },
}

/// For what a deadline was armed.
#[derive(Clone, Copy, PartialEq, Eq)]
pub enum Mark {
    /// For a thread, which waits in the cell of this site.
    Thread { who: ThreadIx, site: u16 },
    /// For the timer of a row.
    Timer(Row),
}

/// What a step does: an event of the trace, or a step that no trace shows.
#[derive(Clone, Copy)]
pub enum FineAct {
    Shown { event: Event, more: More },
    Unseen(Unseen),
}
