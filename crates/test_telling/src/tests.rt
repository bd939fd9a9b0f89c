//! Descriptions, and texts of their images and runs.

mod dumps;
mod events;
mod layouts;
mod summaries;
mod timed;
mod words;

ghost use Rattle.std.specs.Prelude.{IfOk};
ghost use Rattle.um_base.specs.Lawful.{IsLawful};

use std::alloc::Global;
use std::process::Abort;
use std::test::Fail;
use um_base::{Act, Event, Image, ThreadIx};
use um_image::read_image;
use um_samples::described;
use um_trace::{LINE_ROOM, line_text};

/// Threads `a` and `b` with their stacks of 60 bytes, a semaphore `s`, a timer `w`, a domain `d` and a script `m`.
const SMALL: &str = described!(
    "domain = [{name = \"d\"}]
object = [{name = \"a\", kind = \"thread\"}, {name = \"sa\", kind = \"thread_stack\", size = 60},
 {name = \"b\", kind = \"thread\"}, {name = \"sb\", kind = \"thread_stack\", size = 60},
 {name = \"s\", kind = \"sem\"}, {name = \"w\", kind = \"timer\"}]
script = [{name = \"m\", lines = [\"k_oops\"]}]
"
);

/// The image of a description.
fn image_of(alloc: Global, description: &str) -> Result<Image, Fail>
    ensures { IfOk result IsLawful }
{
    match read_image(alloc, description.as_bytes()) {
        Ok(image) => Ok(image),
        Err(_) => Err(Fail::new("refused")),
    }
}

/// The line of an event.
fn line_of(alloc: Global, image: &Image, event: &Event) -> Result<Vec<u8>, Fail> {
    let mut line = Vec::with_capacity(alloc, LINE_ROOM)?;
    line_text(image, event, &mut line);
    Ok(line)
}

/// The lines of these acts of thread `a` of the small image.
fn lines_of(alloc: Global, acts: &[Act]) -> Result<Vec<u8>, Fail> {
    let image = image_of(alloc, SMALL)?;
    let mut lines = Vec::new(alloc);
    for act in acts {
        let event = Event {
            thread: ThreadIx(0),
            act: *act,
        };
        let line = line_of(alloc, &image, &event)?;
        lines.extend_from_slice(&line)?;
    }
    Ok(lines)
}

/// The lines of these acts of thread `a`.
fn are_told<R: Abort + AllocGlobal>(rt: &R, acts: &[Act], want: &str) -> Result<(), Fail> {
    let lines = lines_of(rt.alloc(), acts)?;
    assert_eq!(rt; lines.as_slice(), want.as_bytes());
    Ok(())
}
