//! Which line is that of a step that isn't of its thread's instruction.

ghost use Rattle.std.specs.Prelude.{◌≡◌, ◌<◌, ◌≤◌, [], IfSome, IfNone, IsTrue, false, length, slice_index_or, vec_capacity};
ghost use Rattle.um_base.specs.declared.names.ThreadIx.{ThreadIx};
ghost use Rattle.um_machine.specs.{
  Joins.{is_ending},
  Limits.{IsSound},
  State.{thread_at, is_started},
  declared.pending.Pending.{Pending},
};
ghost use Rattle.um_matrix.specs.Offered.{is_tending};
ghost use Rattle.um_audit.specs.Steps.{IsLineChoice, SaysLine, SaysNotLine};

use crate::lines::{row_for, says_line};
use um_base::{Image, ROWS, THREADS, ThreadIx};
use um_machine::Pending;
use um_matrix::{Choice, Tables};
use um_trace::LINE_ROOM;

/// A thread in its end tells those who wait for it, if the line says that.
fn by_leaving(
    tables: &Tables,
    image: &Image,
    t: usize,
    line: &[u8],
    room: &mut Vec<u8>,
) -> Option<Choice>
    requires thread { t < THREADS }
    requires room { LINE_ROOM ≤ vec_capacity room.old }
    ensures some { IfSome result (λ choice. IsLineChoice image.now line.now tables.now t choice) }
    ensures none { IfNone result
        (IsTrue (is_ending (thread_at tables.now t)) → SaysNotLine image.now line.now tables.now t Pending.Left) }
    ensures capacity { vec_capacity room.old ≤ vec_capacity room.new }
{
    if !tables.is_ending(t) {
        return None;
    }
    match row_for(tables, image, t, &Pending::Left, line, room) {
        Some(_) => Some(Choice::Leaves),
        None => None,
    }
}

/// A step that isn't of an instruction, if the line says that.
fn by_tending(
    tables: &Tables,
    image: &Image,
    t: usize,
    step: &Pending,
    line: &[u8],
    room: &mut Vec<u8>,
) -> Option<Choice>
    requires thread { t < THREADS }
    requires started { IsTrue (is_started (thread_at tables.now t).life) }
    requires tends { IsTrue (is_tending step.now) }
    requires sound { IsSound step.now }
    requires room { LINE_ROOM ≤ vec_capacity room.old }
    ensures some { IfSome result (λ choice. IsLineChoice image.now line.now tables.now t choice) }
    ensures none { IfNone result (SaysNotLine image.now line.now tables.now t step.now) }
    ensures capacity { vec_capacity room.old ≤ vec_capacity room.new }
{
    match row_for(tables, image, t, step, line, room) {
        None => None,
        Some(row) => Some(Choice::Tends { step: *step, row }),
    }
}

/// A step that ends the wait of one other thread, if the line says that.
fn by_waking_of(
    tables: &Tables,
    image: &Image,
    t: usize,
    who: ThreadIx,
    line: &[u8],
    room: &mut Vec<u8>,
) -> Option<Choice>
    requires thread { t < THREADS }
    requires started { IsTrue (is_started (thread_at tables.now t).life) }
    requires room { LINE_ROOM ≤ vec_capacity room.old }
    ensures some { IfSome result (λ choice. IsLineChoice image.now line.now tables.now t choice) }
    ensures times { IfNone result (SaysNotLine image.now line.now tables.now t (Pending.TimeOut who)) }
    ensures cuts { IfNone result (SaysNotLine image.now line.now tables.now t (Pending.Cut who)) }
    ensures capacity { vec_capacity room.old ≤ vec_capacity room.new }
{
    if !tables.is_waiting(who) {
        return None;
    }
    match by_tending(tables, image, t, &Pending::TimeOut { who }, line, room) {
        Some(choice) => Some(choice),
        None => by_tending(tables, image, t, &Pending::Cut { who }, line, room),
    }
}

/// A step that ends the wait of another thread, if the line says that.
fn by_waking(
    tables: &Tables,
    image: &Image,
    t: usize,
    line: &[u8],
    room: &mut Vec<u8>,
) -> Option<Choice>
    requires thread { t < THREADS }
    requires started { IsTrue (is_started (thread_at tables.now t).life) }
    requires room { LINE_ROOM ≤ vec_capacity room.old }
    ensures some { IfSome result (λ choice. IsLineChoice image.now line.now tables.now t choice) }
    ensures times { IfNone result
        ((who : ThreadIx) → SaysNotLine image.now line.now tables.now t (Pending.TimeOut who)) }
    ensures cuts { IfNone result
        ((who : ThreadIx) → SaysNotLine image.now line.now tables.now t (Pending.Cut who)) }
    ensures capacity { vec_capacity room.old ≤ vec_capacity room.new }
{
    for who in 0..tables.threads().len() {
        match by_waking_of(tables, image, t, ThreadIx(who as u8), line, room) {
            Some(choice) => return Some(choice),
            None => {}
        }
    }
    None
}

/// A step of virtual time alone, if the line says that.
fn by_clock(
    tables: &Tables,
    image: &Image,
    t: usize,
    line: &[u8],
    room: &mut Vec<u8>,
) -> Option<Choice>
    requires thread { t < THREADS }
    requires started { IsTrue (is_started (thread_at tables.now t).life) }
    requires room { LINE_ROOM ≤ vec_capacity room.old }
    ensures some { IfSome result (λ choice. IsLineChoice image.now line.now tables.now t choice) }
    ensures ticks { IfNone result (SaysNotLine image.now line.now tables.now t Pending.Tick) }
    ensures timers { IfNone result (SaysNotLine image.now line.now tables.now t Pending.Expire) }
    ensures capacity { vec_capacity room.old ≤ vec_capacity room.new }
{
    match by_tending(tables, image, t, &Pending::Tick, line, room) {
        Some(choice) => Some(choice),
        None => by_tending(tables, image, t, &Pending::Expire, line, room),
    }
}

/// Who has a pair with the object of a row.
fn holders_of(pairs: &[[bool; THREADS]], x: usize) -> &[bool]
    ensures value { result.now ≡ slice_index_or pairs.now x [] }
    ensures few { length result.now ≤ THREADS }
{
    match pairs.get(x) {
        Some(holders) => holders,
        None => &[],
    }
}

/// The drop of a permission on the object of one row, of a thread whose own object is gone, if the line says that.
fn by_pair_at(
    tables: &Tables,
    image: &Image,
    t: usize,
    x: usize,
    line: &[u8],
    room: &mut Vec<u8>,
) -> Option<Choice>
    requires thread { t < THREADS }
    requires row { x < ROWS }
    requires started { IsTrue (is_started (thread_at tables.now t).life) }
    requires room { LINE_ROOM ≤ vec_capacity room.old }
    ensures some { IfSome result (λ choice. IsLineChoice image.now line.now tables.now t choice) }
    ensures none { IfNone result
        ((who : ThreadIx) → SaysLine image.now line.now tables.now t (Pending.CleanPair who) x → ⊥) }
    ensures capacity { vec_capacity room.old ≤ vec_capacity room.new }
{
    for who in 0..holders_of(tables.pairs(), x).len() {
        let step = Pending::CleanPair {
            who: ThreadIx(who as u8),
        };
        if says_line(tables, image, t, x, &step, line, room) {
            return Some(Choice::Tends { step, row: x });
        }
    }
    None
}

/// The drop of a permission of a thread whose own object is gone, if the line says that.
fn by_pair(
    tables: &Tables,
    image: &Image,
    t: usize,
    line: &[u8],
    room: &mut Vec<u8>,
) -> Option<Choice>
    requires thread { t < THREADS }
    requires started { IsTrue (is_started (thread_at tables.now t).life) }
    requires room { LINE_ROOM ≤ vec_capacity room.old }
    ensures some { IfSome result (λ choice. IsLineChoice image.now line.now tables.now t choice) }
    ensures none { IfNone result
        ((who : ThreadIx) → SaysNotLine image.now line.now tables.now t (Pending.CleanPair who)) }
    ensures capacity { vec_capacity room.old ≤ vec_capacity room.new }
{
    for x in 0..tables.pairs().len() {
        match by_pair_at(tables, image, t, x, line, room) {
            Some(choice) => return Some(choice),
            None => {}
        }
    }
    None
}

/// A step that frees what is left of an object, if the line says that.
fn by_cleaning(
    tables: &Tables,
    image: &Image,
    t: usize,
    line: &[u8],
    room: &mut Vec<u8>,
) -> Option<Choice>
    requires thread { t < THREADS }
    requires started { IsTrue (is_started (thread_at tables.now t).life) }
    requires room { LINE_ROOM ≤ vec_capacity room.old }
    ensures some { IfSome result (λ choice. IsLineChoice image.now line.now tables.now t choice) }
    ensures pairs { IfNone result
        ((who : ThreadIx) → SaysNotLine image.now line.now tables.now t (Pending.CleanPair who)) }
    ensures objects { IfNone result (SaysNotLine image.now line.now tables.now t Pending.Recycle) }
    ensures capacity { vec_capacity room.old ≤ vec_capacity room.new }
{
    match by_tending(tables, image, t, &Pending::Recycle, line, room) {
        Some(choice) => Some(choice),
        None => by_pair(tables, image, t, line, room),
    }
}

/// A step of time, or one that ends a wait, if the line says that.
fn by_time(
    tables: &Tables,
    image: &Image,
    t: usize,
    line: &[u8],
    room: &mut Vec<u8>,
) -> Option<Choice>
    requires thread { t < THREADS }
    requires started { IsTrue (is_started (thread_at tables.now t).life) }
    requires room { LINE_ROOM ≤ vec_capacity room.old }
    ensures some { IfSome result (λ choice. IsLineChoice image.now line.now tables.now t choice) }
    ensures times { IfNone result
        ((who : ThreadIx) → SaysNotLine image.now line.now tables.now t (Pending.TimeOut who)) }
    ensures cuts { IfNone result
        ((who : ThreadIx) → SaysNotLine image.now line.now tables.now t (Pending.Cut who)) }
    ensures ticks { IfNone result (SaysNotLine image.now line.now tables.now t Pending.Tick) }
    ensures timers { IfNone result (SaysNotLine image.now line.now tables.now t Pending.Expire) }
    ensures capacity { vec_capacity room.old ≤ vec_capacity room.new }
{
    match by_clock(tables, image, t, line, room) {
        Some(choice) => Some(choice),
        None => by_waking(tables, image, t, line, room),
    }
}

/// A step that isn't of an instruction, and may be of any thread that was started, if the line says that.
fn by_any(
    tables: &Tables,
    image: &Image,
    t: usize,
    line: &[u8],
    room: &mut Vec<u8>,
) -> Option<Choice>
    requires thread { t < THREADS }
    requires room { LINE_ROOM ≤ vec_capacity room.old }
    ensures some { IfSome result (λ choice. IsLineChoice image.now line.now tables.now t choice) }
    ensures none { IfNone result
        (IsTrue (is_started (thread_at tables.now t).life) → (step : Pending) → IsTrue (is_tending step)
        → SaysNotLine image.now line.now tables.now t step) }
    ensures capacity { vec_capacity room.old ≤ vec_capacity room.new }
{
    if !tables.is_started(t) {
        return None;
    }
    match by_cleaning(tables, image, t, line, room) {
        Some(choice) => Some(choice),
        None => match by_time(tables, image, t, line, room) {
            Some(choice) => Some(choice),
            None => None,
        },
    }
}

/// A step that isn't of an instruction, if the line says that.
pub(crate) fn by_other(
    tables: &Tables,
    image: &Image,
    t: usize,
    line: &[u8],
    room: &mut Vec<u8>,
) -> Option<Choice>
    requires thread { t < THREADS }
    requires room { LINE_ROOM ≤ vec_capacity room.old }
    ensures some { IfSome result (λ choice. IsLineChoice image.now line.now tables.now t choice) }
    ensures leaves { IfNone result
        (IsTrue (is_ending (thread_at tables.now t)) → SaysNotLine image.now line.now tables.now t Pending.Left) }
    ensures tends { IfNone result
        (IsTrue (is_started (thread_at tables.now t).life) → (step : Pending) → IsTrue (is_tending step)
        → SaysNotLine image.now line.now tables.now t step) }
    ensures capacity { vec_capacity room.old ≤ vec_capacity room.new }
{
    match by_leaving(tables, image, t, line, room) {
        Some(choice) => Some(choice),
        None => by_any(tables, image, t, line, room),
    }
}
