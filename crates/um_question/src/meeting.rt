//! Whether a run has come to what is asked.

ghost use Rattle.std.specs.{Prelude.{◌≡◌, ◌<◌, ◌≤◌, vec_capacity}, Option.{option_copied}};
ghost use Rattle.um_base.specs.declared.limits.TheConstants.{ROWS, THREADS};
ghost use Rattle.um_question.specs.Asked as asked;
ghost use Rattle.um_question.specs.Sound.{IsSoundQuestion};

use crate::accesses::touches;
use crate::forms::fits;
use crate::question::Question;
use um_base::{Access, Act, Event, Image, Range};
use um_machine::Status;
use um_steps::{Dumped, rows, waits};
use um_trace::{LINE_ROOM, line_text};

/// Whether the last event's line is of a form.
fn has_line(image: &Image, form: &[u8], latest: Option<&Event>, room: &mut Vec<u8>) -> bool
    requires { LINE_ROOM ≤ vec_capacity room.old }
    ensures value { result ≡ asked.has_line image.now form.now (option_copied latest.entry) }
    ensures capacity { vec_capacity room.old ≤ vec_capacity room.new }
{
    match latest {
        Some(event) => {
            line_text(image, event, room);
            fits(form, room.as_slice())
        }
        None => false,
    }
}

/// Whether the last event is a thread's, and touches a range.
fn has_accessed(thread: u8, access: Access, range: Range, latest: Option<&Event>) -> bool
    ensures { result ≡ asked.has_accessed thread access range (option_copied latest.entry) }
{
    match latest {
        Some(event) => event.thread.0 == thread && touches(access, range, &event.act),
        None => false,
    }
}

fn is_fatal(act: &Act) -> bool
    ensures { result ≡ asked.is_fatal act.now }
{
    match *act {
        Act::Fatal { .. } => true,
        _ => false,
    }
}

/// Whether the last event is a thread's fatal error.
fn has_failed(thread: u8, latest: Option<&Event>) -> bool
    ensures { result ≡ asked.has_failed thread (option_copied latest.entry) }
{
    match latest {
        Some(event) => event.thread.0 == thread && is_fatal(&event.act),
        None => false,
    }
}

/// Whether a thread has the permission on an object.
fn holds<D: Dumped>(thread: u8, row: u8, state: &D) -> bool
    requires thread { thread < THREADS }
    requires row { row < ROWS }
    ensures { result ≡ asked.holds thread row (D.state state.now) }
{
    state.has_pair(thread as usize, row as usize) || state.is_public(row as usize)
}

/// Whether a thread waits for the end of another.
fn waits_for_end<D: Dumped>(thread: u8, target: Option<usize>, state: &D) -> bool
    ensures { result ≡ asked.waits_for_end thread target (D.state state.now) }
{
    match target {
        Some(who) => waits::is_joining(thread as usize, who, state.joins()),
        None => false,
    }
}

/// Whether a thread waits on an object, or for the end of the thread whose object it is.
fn is_waiting<D: Dumped>(image: &Image, thread: u8, row: u8, state: &D) -> bool
    requires { row < ROWS }
    ensures { result ≡ asked.waits image.now thread row (D.state state.now) }
{
    waits::stands_in(thread as usize, state.waiters(row as usize))
        || waits_for_end(thread, rows::thread_of_row(image, row as usize), state)
}

/// Whether a run that leads to a state by this last event has come to what is asked. The opening has none.
pub fn meets<D: Dumped>(
    image: &Image,
    question: &Question,
    latest: Option<&Event>,
    state: &D,
    room: &mut Vec<u8>,
) -> bool
    requires room { LINE_ROOM ≤ vec_capacity room.old }
    requires sound { IsSoundQuestion question.now }
    ensures meets { result ≡
        asked.is_met image.now question.now (option_copied latest.entry) (D.state state.now) }
    ensures capacity { vec_capacity room.old ≤ vec_capacity room.new }
{
    match question {
        Question::Form(form) => has_line(image, form.as_slice(), latest, room),
        Question::Accesses {
            thread,
            access,
            range,
        } => has_accessed(thread.0, *access, *range, latest),
        Question::Holds { thread, row } => holds(thread.0, row.0, state),
        Question::Waits { thread, row } => is_waiting(image, thread.0, row.0, state),
        Question::Fails { thread } => has_failed(thread.0, latest),
        Question::Gone { row } => state.status(row.0 as usize) == Status::Gone,
        Question::Nothing => false,
    }
}
