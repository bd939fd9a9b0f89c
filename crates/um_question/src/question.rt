//! Questions about all runs of an image.

use um_base::{Access, Range, Row, ThreadIx};

/// What is asked of all runs of an image.
#[derive(Drop)]
pub enum Question {
    /// A line of this form: words with single spaces, `*` for any word.
    Form(Vec<u8>),
    /// An access of this kind by a thread, or a copy by its call, of at least one byte of a range.
    Accesses {
        thread: ThreadIx,
        access: Access,
        range: Range,
    },
    /// A thread has a permission on the object of a row.
    Holds {
        thread: ThreadIx,
        row: Row,
    },
    /// A thread waits on the object of a row, or for the end of the thread whose object it is.
    Waits {
        thread: ThreadIx,
        row: Row,
    },
    /// A thread fails: any fatal error.
    Fails {
        thread: ThreadIx,
    },
    /// The object of a row is gone.
    Gone {
        row: Row,
    },
    /// Nothing: no run comes to it.
    Nothing,
}
