//! What the lines of the threads begin with.

ghost use Rattle.std.specs.Prelude.{◌≡◌, IfOk, length};
ghost use Rattle.um_audit.specs.Beginnings.{AreBeginnings};

use std::alloc::Global;
use um_base::{Image, OutOfMemory, THREADS};
use um_trace::{LINE_ROOM, thread_beginning};

/// What the lines of each thread begin with, by thread index.
pub fn beginnings(alloc: Global, image: &Image) -> Result<Vec<Vec<u8>>, OutOfMemory>
    ensures { IfOk result (λ names. AreBeginnings image.now names.items) }
{
    let mut names = Vec::with_capacity(alloc, THREADS)?;
    for t in 0..THREADS {
        let mut name = Vec::with_capacity(alloc, LINE_ROOM)?;
        thread_beginning(image, t as u8, &mut name);
        names.push(name)?;
    }
    Ok(names)
}
