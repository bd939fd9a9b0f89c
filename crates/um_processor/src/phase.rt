//! How far a processor is with the fine steps of its thread's next step, and what comes of a turn.

/// The fine step that a processor makes next, if it has no object to clean, no claim to end and no thread to wake.
#[derive(Clone, Copy, PartialEq, Eq)]
pub enum Phase {
    /// It has no thread, and takes one.
    Idle,
    /// Its thread begins a line.
    Begin,
    /// Its thread exits after the last line.
    Exit,
    /// A row is visited to pass its permission on, before the next step.
    Pass,
    /// A row is visited to drop its permission, before the next step.
    Drop,
    /// The size of a queue's messages is looked at, before an access to memory.
    SizeLook,
    /// Before an access to memory the thread is held ..
    Hold,
    /// .. its domain is claimed ..
    ReadClaim,
    /// .. and the region table is loaded.
    RegionLoad,
    /// The event of an access to memory.
    Access,
    /// After an access to memory the claim on the domain ends ..
    ReadDone,
    /// .. and the thread is let go.
    LetGo,
    /// Before the event of a domain's edit the domain is claimed ..
    WriteClaim,
    /// .. and its partitions change.
    Edit,
    /// Before the event of a move the domain is claimed ..
    MoveClaim,
    /// .. and the claim ends, if the domain is initialised.
    MoveDone,
    /// Before the event of a start the creator is held ..
    StartHold,
    /// .. the new thread's index may be joined again ..
    Unshut,
    /// .. and then comes the event of the start.
    Start,
    /// After a start the creator is let go ..
    StartLetGo,
    /// .. and the new thread gets ready.
    Add,
    /// Before an act that may wait the thread's word notes its cell.
    Note,
    /// Before a deadline is armed its mark is owed.
    Owe,
    /// The event of an act on an object, or of a join, behind which a mark may have to be settled.
    Act,
    /// After a wait on a futex the claim on the domain ends ..
    ActDone,
    /// .. and the thread is let go.
    ActLetGo,
    /// The mark is settled for which an act was made.
    Settle,
    /// After an act that waits the thread's word is read once more.
    Reread,
    /// A thread that was aborted is looked for in a cell ..
    Look,
    /// .. and gets ready.
    TellCut,
    /// A thread that sleeps is looked for ..
    Rouse,
    /// .. and gets ready.
    AddRoused,
    /// Behind a look nothing is left, and the thread's next step comes.
    Open,
    /// Before its own object is cleared, the thread tells those who wait for its end.
    Leave,
    /// The event of any other step.
    Show,
    /// A suspended thread goes to sleep ..
    Sleep,
    /// .. and its word is read once more.
    RereadAsleep,
    /// It has no thread, and a mark in its hand, which is handled ..
    Handle,
    /// .. and then isn't owed any more.
    Paid,
    /// The thread is put back.
    Park,
    /// The thread stops running and isn't put back.
    Done,
}

/// What comes of a turn of a processor.
#[derive(Clone, Copy, PartialEq, Eq)]
pub enum Turn {
    /// It made its next step.
    Made,
    /// The site refuses such a step now.
    Busy,
    /// Others are at the site, or nothing more can be noted.
    Changed,
    /// It has no step that it could ask for.
    Stuck,
}
