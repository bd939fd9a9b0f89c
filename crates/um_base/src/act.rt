//! The acts of the access-matrix machine: what a thread does to what is protected, one step at a time.

use crate::attr::Attr;
use crate::lists::Replies;
use crate::names::{Access, Addr, Errno, Kind, Range, Reply, Row, ThreadIx, Want};

/// What an act on an object's contents answers its caller.
#[derive(Clone, Copy, PartialEq, Eq)]
pub enum Answer {
    /// It replies at once.
    Now(Reply),
    /// It waits.
    Wait,
}

/// What a string read found.
#[derive(Clone, Copy, PartialEq, Eq)]
pub enum Found {
    /// So many bytes before the zero.
    Length(u32),
    /// A byte that the thread may not read comes first.
    Unreadable,
    /// No zero among the bytes that are read at most.
    TooLong,
}

/// Whether the object still stood.
#[derive(Clone, Copy, PartialEq, Eq)]
pub enum Given {
    Done,
    Gone,
}

/// What a dropped permission left.
#[derive(Clone, Copy, PartialEq, Eq)]
pub enum Leftover {
    /// The object.
    Kept,
    /// An object that is gone: a dynamic one that lost its last pair.
    Gone,
    /// There was no pair.
    NoPair,
}

/// What marking an object as initialised said.
#[derive(Clone, Copy, PartialEq, Eq)]
pub enum SetSaid {
    Done,
    Gone,
    Fail(Errno),
}

/// Why a thread fails.
#[derive(Clone, Copy, PartialEq, Eq)]
pub enum Cause {
    Refused(Errno),
    Size,
    NoUser,
    Essential,
    Priority,
    PriorityHigher,
    Access,
    Privileged,
    KOops,
    KPanic,
}

/// What a thread does to what is protected, in one step.
#[derive(Clone, Copy, PartialEq, Eq)]
pub enum Act {
    /// Begins a line of a script, counted from 1.
    Begin {
        script: u8,
        line: u16,
    },
    /// Looks for an object at an address: of this kind, or of any, and in the wanted state. None: the check is passed (Zephyr: User Mode, System Calls).
    Check {
        addr: Addr,
        kind: Option<Kind>,
        want: Want,
        verdict: Option<Errno>,
    },
    /// Reads a number of 1, 2 or 4 bytes, the lowest first.
    Load {
        addr: Addr,
        size: u32,
        value: u32,
    },
    /// Writes the lowest 1, 2 or 4 bytes of a number, the lowest first.
    Store {
        addr: Addr,
        size: u32,
        value: u32,
    },
    /// Executes the 4 bytes at an address.
    Fetch {
        addr: Addr,
    },
    /// Is denied an access to so many bytes (Zephyr: User Mode, Memory Protection Design).
    Fault {
        access: Access,
        addr: Addr,
        size: u32,
    },
    /// Asks for a call whether its thread may write so many bytes.
    Probe {
        addr: Addr,
        size: u32,
        fits: bool,
    },
    /// Copies so many bytes of its thread's memory in, where the thread may read them (Zephyr: User Mode, System Calls).
    CopyIn {
        addr: Addr,
        size: u32,
        fits: bool,
    },
    /// Copies so many bytes out to its thread's memory, where the thread may write them.
    CopyOut {
        addr: Addr,
        size: u32,
        fits: bool,
    },
    /// Copies a text in that a zero ends.
    CopyStr {
        addr: Addr,
        found: Found,
    },
    /// Sets the bytes of the stack of a row to zero.
    Erase {
        stack: Row,
    },
    /// Does what a call asks of the contents of the object at an address, and wakes threads.
    Work {
        addr: Addr,
        answer: Answer,
        woken: Replies,
    },
    /// Goes on after it was woken.
    Resume,
    /// Its call replies.
    Answered {
        reply: Reply,
    },
    /// Gives a thread a pair with the object at an address (Zephyr: User Mode, Kernel Objects).
    Grant {
        who: ThreadIx,
        addr: Addr,
        given: Given,
    },
    /// Gives a new thread a pair with its own thread object.
    Own {
        who: ThreadIx,
        given: Given,
    },
    /// Passes a pair of its own on to a new thread.
    Inherit {
        who: ThreadIx,
        addr: Addr,
    },
    /// Takes a thread's pair with the object at an address away.
    DropPair {
        who: ThreadIx,
        addr: Addr,
        left: Leftover,
    },
    /// Opens the object at an address to all threads.
    Publish {
        addr: Addr,
        given: Given,
    },
    /// Marks the object at an address as initialised.
    SetInit {
        addr: Addr,
        set: SetSaid,
    },
    /// Marks the object at an address as uninitialised.
    ClearInit {
        addr: Addr,
    },
    /// Gives a thread the name that was copied in.
    Named {
        who: ThreadIx,
    },
    /// Takes an address for a new object, or none where none is free or the pool doesn't pay.
    Reserve {
        kind: Kind,
        addr: Option<Addr>,
    },
    /// Lets the new object at an address stand.
    Born {
        addr: Addr,
    },
    /// Takes so many bytes of its thread's pool for a buffer, where it has them.
    Buffer {
        size: u32,
        fits: bool,
    },
    /// Gives so many bytes back to its thread's pool.
    Unbuffer {
        size: u32,
    },
    /// Frees the address of an object that is gone.
    Recycle {
        addr: Addr,
    },
    /// Initialises a domain.
    DomInit {
        domain: u8,
        reply: Reply,
    },
    /// Adds a partition to a domain.
    DomAdd {
        domain: u8,
        range: Range,
        attr: Attr,
        reply: Reply,
    },
    /// Removes a partition from a domain.
    DomRemove {
        domain: u8,
        range: Range,
        attr: Attr,
        reply: Reply,
    },
    /// Moves a thread to a domain.
    DomMove {
        domain: u8,
        who: ThreadIx,
        reply: Reply,
    },
    /// Starts a thread.
    Start {
        who: ThreadIx,
    },
    /// Drops the rights of a supervisor for good.
    EnterUser,
    /// Fails, with the number of the reason as Zephyr has it.
    Fatal {
        reason: u8,
        cause: Cause,
    },
    /// Lets a thread begin no other line.
    Doom {
        who: ThreadIx,
    },
    /// Ends after its last line.
    Exit,
    /// Sets a deadline for its call, or for a timer: so many ticks from the beginning.
    Arm {
        deadline: u64,
    },
    /// Lets virtual time go on to the next deadline.
    Tick {
        now: u64,
    },
    /// Wakes a thread whose deadline has come.
    TimedOut {
        who: ThreadIx,
    },
    /// Lets the timer at an address run out, whose deadline has come, and wakes a thread.
    Expire {
        addr: Addr,
        woken: Replies,
    },
    /// Marks a thread as aborted, where it lives (Zephyr: `k_thread_abort`).
    Abort {
        who: ThreadIx,
        done: bool,
    },
    /// Marks a thread as suspended, where it lives (Zephyr: `k_thread_suspend`).
    Suspend {
        who: ThreadIx,
        done: bool,
    },
    /// Takes the mark of a suspended thread away, where it lives (Zephyr: `k_thread_resume`).
    Continue {
        who: ThreadIx,
        done: bool,
    },
    /// Takes an aborted thread out of those who wait.
    Cut {
        who: ThreadIx,
    },
    /// Ends since it was aborted.
    Killed,
    /// Asks for the end of a thread (Zephyr: `k_thread_join`).
    Join {
        who: ThreadIx,
        answer: Answer,
    },
    /// Tells all who wait for its end that it comes.
    Left {
        who: ThreadIx,
        woken: Replies,
    },
    /// Waits on the futex at an address, where the number there is this one (Zephyr: `k_futex_wait`).
    FutexWait {
        addr: Addr,
        value: u32,
        answer: Answer,
    },
    /// Wakes who wait on the futex at an address (Zephyr: `k_futex_wake`).
    FutexWake {
        addr: Addr,
        answer: Answer,
        woken: Replies,
    },
}

/// An act with the thread that does it.
#[derive(Clone, Copy, PartialEq, Eq)]
pub struct Event {
    pub thread: ThreadIx,
    pub act: Act,
}
