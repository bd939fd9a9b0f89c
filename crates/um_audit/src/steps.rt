//! Which line is that of a step. A line is compared with the lines of the steps that its thread may make, and the step whose line is the
//! same is made.

ghost use Rattle.std.specs.Prelude.{◌≡◌, ◌<◌, ◌≤◌, ◌++◌, ℕ, List, IfSome, IfNone, Some, None, false, true, slice_get, vec_capacity};
ghost use Rattle.um_machine.specs.{
  State.{thread_at},
  declared.pending.Pending.{Pending},
};
ghost use Rattle.um_matrix.specs.Offered.{first_step, second_step, rest_step};
ghost use Rattle.um_audit.specs.{
  Beginnings.{AreBeginnings},
  Steps.{IsLineChoice, IsStepLine, IsNoStepLine, IsNoThreadsLine, SaysNotLine},
};

use crate::lines::{is_line, row_for};
use crate::tending::by_other;
use um_base::{Event, Image, THREADS, ThreadIx};
use um_machine::Pending;
use um_matrix::{Choice, Matrix, Tables};
use um_trace::LINE_ROOM;

/// What a thread at rest does next, if the line says that.
fn at_rest(
    tables: &Tables,
    image: &Image,
    t: usize,
    line: &[u8],
    room: &mut Vec<u8>,
) -> Option<Choice>
    requires thread { t < THREADS }
    requires rest { slice_get (thread_at tables.now t).pending 0 ≡ None }
    requires room { LINE_ROOM ≤ vec_capacity room.old }
    ensures some { IfSome result (λ choice. IsLineChoice image.now line.now tables.now t choice) }
    ensures none { IfNone result
        ((step : Pending) → rest_step tables.now t ≡ Some step → SaysNotLine image.now line.now tables.now t step) }
    ensures capacity { vec_capacity room.old ≤ vec_capacity room.new }
{
    let act = match tables.rest_act(t) {
        None => return None,
        Some(act) => act,
    };
    let event = Event {
        thread: ThreadIx(t as u8),
        act,
    };
    if !is_line(image, &event, line, room) {
        return None;
    }
    Some(Choice::at_rest(&event.act))
}

/// A thread's next step, if the line says that.
fn by_first(
    tables: &Tables,
    image: &Image,
    t: usize,
    line: &[u8],
    room: &mut Vec<u8>,
) -> Option<Choice>
    requires thread { t < THREADS }
    requires room { LINE_ROOM ≤ vec_capacity room.old }
    ensures some { IfSome result (λ choice. IsLineChoice image.now line.now tables.now t choice) }
    ensures none { IfNone result
        ((step : Pending) → first_step tables.now t ≡ Some step → SaysNotLine image.now line.now tables.now t step) }
    ensures capacity { vec_capacity room.old ≤ vec_capacity room.new }
{
    match tables.next_step(t) {
        None => at_rest(tables, image, t, line, room),
        Some(step) => match row_for(tables, image, t, &step, line, room) {
            None => None,
            Some(row) => Some(Choice::Makes {
                step,
                row,
                taken: 1,
            }),
        },
    }
}

/// The step after one that may be left out, if the line says that.
fn by_second(
    tables: &Tables,
    image: &Image,
    t: usize,
    line: &[u8],
    room: &mut Vec<u8>,
) -> Option<Choice>
    requires thread { t < THREADS }
    requires room { LINE_ROOM ≤ vec_capacity room.old }
    ensures some { IfSome result (λ choice. IsLineChoice image.now line.now tables.now t choice) }
    ensures none { IfNone result
        ((step : Pending) → second_step tables.now t ≡ Some step → SaysNotLine image.now line.now tables.now t step) }
    ensures capacity { vec_capacity room.old ≤ vec_capacity room.new }
{
    match tables.second_step(t) {
        None => None,
        Some(step) => match row_for(tables, image, t, &step, line, room) {
            None => None,
            Some(row) => Some(Choice::Makes {
                step,
                row,
                taken: 2,
            }),
        },
    }
}

/// One of a thread's own steps, if the line says that.
fn by_steps(
    tables: &Tables,
    image: &Image,
    t: usize,
    line: &[u8],
    room: &mut Vec<u8>,
) -> Option<Choice>
    requires thread { t < THREADS }
    requires room { LINE_ROOM ≤ vec_capacity room.old }
    ensures some { IfSome result (λ choice. IsLineChoice image.now line.now tables.now t choice) }
    ensures first { IfNone result
        ((step : Pending) → first_step tables.now t ≡ Some step → SaysNotLine image.now line.now tables.now t step) }
    ensures second { IfNone result
        ((step : Pending) → second_step tables.now t ≡ Some step → SaysNotLine image.now line.now tables.now t step) }
    ensures capacity { vec_capacity room.old ≤ vec_capacity room.new }
{
    match by_first(tables, image, t, line, room) {
        Some(choice) => Some(choice),
        None => by_second(tables, image, t, line, room),
    }
}

/// A step of a thread, if the line is that of one.
fn by_thread(
    tables: &Tables,
    image: &Image,
    t: usize,
    line: &[u8],
    room: &mut Vec<u8>,
) -> Option<Choice>
    requires thread { t < THREADS }
    requires room { LINE_ROOM ≤ vec_capacity room.old }
    ensures some { IfSome result (λ choice. IsLineChoice image.now line.now tables.now t choice) }
    ensures none { IfNone result (IsNoThreadsLine image.now line.now t tables.now) }
    ensures capacity { vec_capacity room.old ≤ vec_capacity room.new }
{
    match by_steps(tables, image, t, line, room) {
        Some(choice) => Some(choice),
        None => match by_other(tables, image, t, line, room) {
            Some(choice) => Some(choice),
            None => None,
        },
    }
}

/// Whether a line begins with these bytes. The lines of most threads differ in the byte before the space, which is looked at first.
fn begins(line: &[u8], beginning: &[u8]) -> bool
    ensures { result ≡ false → (more : List ℕ) → line.now ≡ beginning.now ++ more → ⊥ }
{
    let place = beginning.len().saturating_sub(2);
    if place < beginning.len() && place < line.len() && line[place] != beginning[place] {
        return false;
    }
    line.starts_with(beginning)
}

/// A thread and a step of it, if the line is that of one. The line begins with the thread's object.
fn choice_of(
    tables: &Tables,
    image: &Image,
    names: &[Vec<u8>],
    line: &[u8],
    room: &mut Vec<u8>,
) -> Option<(usize, Choice)>
    requires names { AreBeginnings image.now names.now }
    requires room { LINE_ROOM ≤ vec_capacity room.old }
    ensures thread { IfSome result (λ found. found.0 < THREADS) }
    ensures some { IfSome result (λ found. IsLineChoice image.now line.now tables.now found.0 found.1) }
    ensures none { IfNone result (IsNoStepLine image.now line.now tables.now) }
    ensures capacity { vec_capacity room.old ≤ vec_capacity room.new }
{
    let _threads = tables.threads().len();
    for (t, name) in names.iter().enumerate() {
        if !begins(line, name.as_slice()) {
            continue;
        }
        match by_thread(tables, image, t, line, room) {
            Some(choice) => return Some((t, choice)),
            None => {}
        }
    }
    None
}

/// Makes a step, if the line is that of one. Any other line changes nothing.
pub fn takes_line(
    matrix: &mut Matrix,
    image: &Image,
    names: &[Vec<u8>],
    line: &[u8],
    room: &mut Vec<u8>,
) -> bool
    requires names { AreBeginnings image.now names.now }
    requires room { LINE_ROOM ≤ vec_capacity room.old }
    ensures yes { result ≡ true → IsStepLine image.now line.now matrix.old matrix.new }
    ensures no { result ≡ false → IsNoStepLine image.now line.now matrix.old }
    ensures same { result ≡ false → matrix.new ≡ matrix.old }
    ensures capacity { vec_capacity room.old ≤ vec_capacity room.new }
{
    match choice_of(matrix.tables(), image, names, line, room) {
        None => false,
        Some((t, choice)) => {
            matrix.make(t, &choice);
            true
        }
    }
}
