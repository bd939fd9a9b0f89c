//! Parts of a text by themselves: the line of one event, what the lines of a thread begin with, and a dump.

ghost use Rattle.std.specs.Prelude.{◌≡◌, ◌≤◌, ◌++◌, codes, vec_capacity};
ghost use Rattle.um_trace.specs.{Acts.{event_line}, Dump.{dump, threads_text}, Names.{thread_text}};

use crate::dump::threads::put_threads;
use crate::dump::{DUMP_ROOM, put_dump};
use crate::indexed::Indexed;
use crate::names::put_thread;
use crate::room::put_space;
use crate::trace::{put_event, woken_by};
use um_base::{Event, Image, ROWS, THREADS};
use um_steps::Dumped;

/// How many bytes a line takes at most.
pub const LINE_ROOM: usize = 128 + 64 * THREADS;

/// How many bytes a dump's lines of threads take at most.
pub const THREADS_ROOM: usize = 128 * ROWS;

/// Writes the line of an event in place of what stands in a room. The room is reserved, so it takes no memory.
pub fn line_text(image: &Image, event: &Event, room: &mut Vec<u8>)
    requires { LINE_ROOM ≤ vec_capacity room.old }
    ensures text { room.new.items ≡ event_line image.now event.now }
    ensures capacity { vec_capacity room.old ≤ vec_capacity room.new }
{
    room.clear();
    let _few = woken_by(&event.act);
    put_event(room, &Indexed::of_lines(image), event);
}

/// Writes what the lines of a thread begin with, in place of what stands in a room: the thread, and a space.
pub fn thread_beginning(image: &Image, thread: u8, room: &mut Vec<u8>)
    requires { LINE_ROOM ≤ vec_capacity room.old }
    ensures text { room.new.items ≡ thread_text image.now thread ++ codes " " }
    ensures capacity { vec_capacity room.old ≤ vec_capacity room.new }
{
    room.clear();
    put_thread(room, &Indexed::of_lines(image), thread);
    put_space(room);
}

/// Writes a dump's lines of threads in place of what stands in a room. The room is reserved, so it takes no memory.
#[tactic(auto, unfolding(crate::specs::Dump::threads_text))]
pub fn threads_text<D: Dumped>(image: &Image, last: &D, room: &mut Vec<u8>)
    requires { THREADS_ROOM ≤ vec_capacity room.old }
    ensures text { room.new.items ≡ threads_text image.now (D.state last.now) }
    ensures capacity { vec_capacity room.old ≤ vec_capacity room.new }
{
    room.clear();
    put_threads(room, &Indexed::of_text(image), last);
}

/// Writes the dump of a state in place of what stands in a room. The room is reserved, so it takes no memory.
pub fn dump_text<D: Dumped>(image: &Image, last: &D, room: &mut Vec<u8>)
    requires { DUMP_ROOM ≤ vec_capacity room.old }
    ensures { room.new.items ≡ dump image.now (D.state last.now) }
{
    room.clear();
    put_dump(room, &Indexed::of_text(image), last);
}
