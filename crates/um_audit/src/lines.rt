//! Lines that are compared with those of steps.

ghost use Rattle.std.specs.Prelude.{◌≡◌, ◌<◌, ◌≤◌, ◌∷◌, ◌++◌, ◌↔◌, [], IfSome, IfNone, IsTrue, vec_capacity};
ghost use Rattle.um_machine.specs.Limits.{IsSound};
ghost use Rattle.um_matrix.specs.Offered.{row_count};
ghost use Rattle.um_audit.specs.Steps.{IsLine, SaysLine, SaysNotLine};

use um_base::{Event, Image, THREADS, ThreadIx};
use um_machine::Pending;
use um_matrix::Tables;
use um_trace::{LINE_ROOM, line_text};

/// Whether what stands in a room is a line with its newline.
fn holds_line(room: &[u8], line: &[u8]) -> bool
    ensures { IsTrue result ↔ (room.now ≡ line.now ++ 10 ∷ []) }
{
    match room.split_last() {
        Some((last, front)) => *last == 10 && front == line,
        None => false,
    }
}

/// Whether a line is that of an event.
pub(crate) fn is_line(image: &Image, event: &Event, line: &[u8], room: &mut Vec<u8>) -> bool
    requires { LINE_ROOM ≤ vec_capacity room.old }
    ensures is { IsTrue result ↔ IsLine image.now line.now event.now }
    ensures capacity { vec_capacity room.old ≤ vec_capacity room.new }
{
    line_text(image, event, room);
    holds_line(room, line)
}

/// Whether a step of a thread says a line, with a row that it may choose.
pub(crate) fn says_line(
    tables: &Tables,
    image: &Image,
    t: usize,
    x: usize,
    step: &Pending,
    line: &[u8],
    room: &mut Vec<u8>,
) -> bool
    requires thread { t < THREADS }
    requires row { x < row_count step.now }
    requires sound { IsSound step.now }
    requires room { LINE_ROOM ≤ vec_capacity room.old }
    ensures says { IsTrue result ↔ SaysLine image.now line.now tables.now t step.now x }
    ensures capacity { vec_capacity room.old ≤ vec_capacity room.new }
{
    if !tables.may_choose(t, x, step) {
        return false;
    }
    let event = Event {
        thread: ThreadIx(t as u8),
        act: tables.says(t, x, step),
    };
    is_line(image, &event, line, room)
}

/// The row with which a step says a line.
pub(crate) fn row_for(
    tables: &Tables,
    image: &Image,
    t: usize,
    step: &Pending,
    line: &[u8],
    room: &mut Vec<u8>,
) -> Option<usize>
    requires thread { t < THREADS }
    requires sound { IsSound step.now }
    requires room { LINE_ROOM ≤ vec_capacity room.old }
    ensures inside { IfSome result (λ x. x < row_count step.now) }
    ensures found { IfSome result (λ x. SaysLine image.now line.now tables.now t step.now x) }
    ensures none { IfNone result (SaysNotLine image.now line.now tables.now t step.now) }
    ensures capacity { vec_capacity room.old ≤ vec_capacity room.new }
{
    for x in 0..tables.row_count(step) {
        if says_line(tables, image, t, x, step, line, room) {
            return Some(x);
        }
    }
    None
}
