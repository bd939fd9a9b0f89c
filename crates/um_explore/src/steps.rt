//! The steps that a state offers.

ghost use Rattle.std.specs.Prelude.{◌≡◌, ◌<◌, ◌≤◌, ℕ, IfOk, IsTrue, None, Some, false, [], length, slice_get, slice_index_or, ◌++◌, ◌∷◌};
ghost use Rattle.um_base.specs.declared.names.ThreadIx.{ThreadIx};
ghost use Rattle.um_machine.specs.{
  Joins.{is_ending},
  Objects.{is_gone},
  Limits.{IsSound},
  Order.{to_thread},
  Run.{MayChoose, is_tending},
  State.{is_started, object_at, thread_at},
  Table.{act_of},
  declared.pending.Pending.{Pending},
};
ghost use Rattle.um_matrix.specs.Offered.{IsStep, event_of, first_step, rest_step, second_step};
ghost use Rattle.um_explore.specs.Steps.{AreSteps, GoesOn, Has, HasOthers, HasPair, HasStep, HasThread, IsOffered};

use um_base::{Act, Event, OutOfMemory, ROWS, THREADS, ThreadIx};
use um_machine::{Pending, Status};
use um_matrix::Tables;

/// Adds an event to a list.
pub(crate) fn push(event: &Event, events: &mut Vec<Event>) -> Result<(), OutOfMemory>
    ensures { IfOk result (λ _. events.new.items ≡ events.old.items ++ event.now ∷ []) }
{
    let act: &Act = &event.act;
    events.push(Event {
        thread: event.thread,
        act: *act,
    })?;
    Ok(())
}

/// Adds what a thread says, which is a step.
fn add(tables: &Tables, t: usize, act: &Act, events: &mut Vec<Event>) -> Result<(), OutOfMemory>
    requires thread { t < THREADS }
    requires step { IsStep tables.now (event_of t act.now) }
    ensures goes { IfOk result (λ _. GoesOn tables.now events.old.items events.new.items) }
    ensures has { IfOk result (λ _. Has events.new.items (event_of t act.now)) }
{
    events.push(Event {
        thread: ThreadIx(t as u8),
        act: *act,
    })?;
    Ok(())
}

/// Adds what a step says, with each row that it may choose.
fn add_rows(
    tables: &Tables,
    t: usize,
    step: &Pending,
    events: &mut Vec<Event>,
) -> Result<(), OutOfMemory>
    requires thread { t < THREADS }
    requires sound { IsSound step.now }
    requires offered { IsOffered tables.now t step.now }
    ensures goes { IfOk result (λ _. GoesOn tables.now events.old.items events.new.items) }
    ensures has { IfOk result (λ _. HasStep tables.now t events.new.items step.now) }
{
    for x in 0..tables.row_count(step) {
        if tables.may_choose(t, x, step) {
            add(tables, t, &tables.says(t, x, step), events)?;
        }
    }
    Ok(())
}

/// Adds what a thread at rest does next.
fn add_rest(tables: &Tables, t: usize, events: &mut Vec<Event>) -> Result<(), OutOfMemory>
    requires thread { t < THREADS }
    requires rest { slice_get (thread_at tables.now t).pending 0 ≡ None }
    ensures goes { IfOk result (λ _. GoesOn tables.now events.old.items events.new.items) }
    ensures has { IfOk result
        (λ _. (step : Pending) → rest_step tables.now t ≡ Some step
        → HasStep tables.now t events.new.items step) }
{
    match tables.rest_act(t) {
        None => Ok(()),
        Some(act) => add(tables, t, &act, events),
    }
}

/// Adds a thread's next step.
fn add_first(tables: &Tables, t: usize, events: &mut Vec<Event>) -> Result<(), OutOfMemory>
    requires thread { t < THREADS }
    ensures goes { IfOk result (λ _. GoesOn tables.now events.old.items events.new.items) }
    ensures has { IfOk result (λ _. (step : Pending) → first_step tables.now t ≡ Some step
        → HasStep tables.now t events.new.items step) }
{
    match tables.next_step(t) {
        None => add_rest(tables, t, events),
        Some(step) => add_rows(tables, t, &step, events),
    }
}

/// Adds the step after one that is left out.
fn add_second(tables: &Tables, t: usize, events: &mut Vec<Event>) -> Result<(), OutOfMemory>
    requires thread { t < THREADS }
    ensures goes { IfOk result (λ _. GoesOn tables.now events.old.items events.new.items) }
    ensures has { IfOk result (λ _. (step : Pending) → second_step tables.now t ≡ Some step
        → HasStep tables.now t events.new.items step) }
{
    match tables.second_step(t) {
        None => Ok(()),
        Some(step) => add_rows(tables, t, &step, events),
    }
}

/// Adds that a thread in its end tells those who wait for it.
fn add_leaving(tables: &Tables, t: usize, events: &mut Vec<Event>) -> Result<(), OutOfMemory>
    requires thread { t < THREADS }
    ensures goes { IfOk result (λ _. GoesOn tables.now events.old.items events.new.items) }
    ensures has { IfOk result
        (λ _. IsTrue (is_ending (thread_at tables.now t))
        → HasStep tables.now t events.new.items Pending.Left) }
{
    if !tables.is_ending(t) {
        return Ok(());
    }
    add_rows(tables, t, &Pending::Left, events)
}

/// Adds a step that isn't of an instruction.
fn add_tending(
    tables: &Tables,
    t: usize,
    step: &Pending,
    events: &mut Vec<Event>,
) -> Result<(), OutOfMemory>
    requires thread { t < THREADS }
    requires started { IsTrue (is_started (thread_at tables.now t).life) }
    requires tends { IsTrue (is_tending step.now) }
    requires sound { IsSound step.now }
    ensures goes { IfOk result (λ _. GoesOn tables.now events.old.items events.new.items) }
    ensures has { IfOk result (λ _. HasStep tables.now t events.new.items step.now) }
{
    add_rows(tables, t, step, events)
}

/// Whether any object is gone.
fn is_any_gone(tables: &Tables) -> bool
    ensures { result ≡ false → (x : ℕ) → is_gone (object_at tables.now x).status ≡ false }
{
    for x in 0..tables.row_count(&Pending::Recycle) {
        if tables.object(x).status == Status::Gone {
            return true;
        }
    }
    false
}

/// Who has a pair with the object of a row.
fn holders_of(pairs: &[[bool; THREADS]], x: usize) -> &[bool]
    ensures value { result.now ≡ slice_index_or pairs.now x [] }
    ensures few { length result.now ≤ THREADS }
{
    match pairs.get(x) {
        Some(holders) => holders,
        None => &[],
    }
}

/// Adds the drops of permissions on the object of one row, of threads whose own objects are gone.
fn add_pairs_at(
    tables: &Tables,
    t: usize,
    x: usize,
    events: &mut Vec<Event>,
) -> Result<(), OutOfMemory>
    requires thread { t < THREADS }
    requires row { x < ROWS }
    requires started { IsTrue (is_started (thread_at tables.now t).life) }
    ensures goes { IfOk result (λ _. GoesOn tables.now events.old.items events.new.items) }
    ensures has { IfOk result (λ _. (who : ThreadIx) → HasPair tables.now t events.new.items who x) }
{
    for who in 0..holders_of(tables.pairs(), x).len() {
        let step = Pending::CleanPair {
            who: ThreadIx(who as u8),
        };
        if tables.may_choose(t, x, &step) {
            add(tables, t, &tables.says(t, x, &step), events)?;
        }
    }
    Ok(())
}

/// Adds the drops of permissions of threads whose own objects are gone.
fn add_pairs(tables: &Tables, t: usize, events: &mut Vec<Event>) -> Result<(), OutOfMemory>
    requires thread { t < THREADS }
    requires started { IsTrue (is_started (thread_at tables.now t).life) }
    ensures goes { IfOk result (λ _. GoesOn tables.now events.old.items events.new.items) }
    ensures has { IfOk result
        (λ _. (who : ThreadIx) → HasStep tables.now t events.new.items (Pending.CleanPair who)) }
{
    for x in 0..tables.pairs().len() {
        add_pairs_at(tables, t, x, events)?;
    }
    Ok(())
}

/// Adds the steps that free what is left of objects that are gone.
fn add_cleaning(tables: &Tables, t: usize, events: &mut Vec<Event>) -> Result<(), OutOfMemory>
    requires thread { t < THREADS }
    requires started { IsTrue (is_started (thread_at tables.now t).life) }
    ensures goes { IfOk result (λ _. GoesOn tables.now events.old.items events.new.items) }
    ensures recycles { IfOk result (λ _. HasStep tables.now t events.new.items Pending.Recycle) }
    ensures pairs { IfOk result
        (λ _. (who : ThreadIx) → HasStep tables.now t events.new.items (Pending.CleanPair who)) }
{
    if !is_any_gone(tables) {
        return Ok(());
    }
    add_tending(tables, t, &Pending::Recycle, events)?;
    add_pairs(tables, t, events)
}

/// Adds the steps that end the wait of a thread.
fn add_waking(
    tables: &Tables,
    t: usize,
    who: usize,
    events: &mut Vec<Event>,
) -> Result<(), OutOfMemory>
    requires thread { t < THREADS }
    requires of { who < THREADS }
    requires started { IsTrue (is_started (thread_at tables.now t).life) }
    ensures goes { IfOk result (λ _. GoesOn tables.now events.old.items events.new.items) }
    ensures times { IfOk result
        (λ _. HasStep tables.now t events.new.items (Pending.TimeOut (to_thread who))) }
    ensures cuts { IfOk result (λ _. HasStep tables.now t events.new.items (Pending.Cut (to_thread who))) }
{
    let who = ThreadIx(who as u8);
    if !tables.is_waiting(who) {
        return Ok(());
    }
    add_tending(tables, t, &Pending::TimeOut { who }, events)?;
    add_tending(tables, t, &Pending::Cut { who }, events)
}

/// Adds the steps of a thread that tend to another.
fn add_others(tables: &Tables, t: usize, events: &mut Vec<Event>) -> Result<(), OutOfMemory>
    requires thread { t < THREADS }
    requires started { IsTrue (is_started (thread_at tables.now t).life) }
    ensures goes { IfOk result (λ _. GoesOn tables.now events.old.items events.new.items) }
    ensures has { IfOk result (λ _. HasOthers tables.now t THREADS events.new.items) }
{
    for who in 0..tables.threads().len() {
        add_waking(tables, t, who, events)?;
    }
    Ok(())
}

/// Adds the steps of a thread that aren't of an instruction.
fn add_all_tending(tables: &Tables, t: usize, events: &mut Vec<Event>) -> Result<(), OutOfMemory>
    requires thread { t < THREADS }
    ensures goes { IfOk result (λ _. GoesOn tables.now events.old.items events.new.items) }
    ensures has { IfOk result (λ _. IsTrue (is_started (thread_at tables.now t).life) → (step : Pending)
        → IsTrue (is_tending step) → HasStep tables.now t events.new.items step) }
{
    if !tables.is_started(t) {
        return Ok(());
    }
    let _threads = tables.threads();
    add_cleaning(tables, t, events)?;
    add_tending(tables, t, &Pending::Tick, events)?;
    add_tending(tables, t, &Pending::Expire, events)?;
    add_others(tables, t, events)
}

/// Adds the steps of a thread.
fn add_thread(tables: &Tables, t: usize, events: &mut Vec<Event>) -> Result<(), OutOfMemory>
    requires thread { t < THREADS }
    ensures goes { IfOk result (λ _. GoesOn tables.now events.old.items events.new.items) }
    ensures has { IfOk result (λ _. HasThread tables.now t events.new.items) }
{
    add_first(tables, t, events)?;
    add_second(tables, t, events)?;
    add_leaving(tables, t, events)?;
    add_all_tending(tables, t, events)
}

/// Puts the steps of a state in place of what stands in a list.
pub fn steps_of(tables: &Tables, events: &mut Vec<Event>) -> Result<(), OutOfMemory>
    ensures { IfOk result (λ _. AreSteps tables.now events.new.items) }
{
    events.clear();
    for t in 0..tables.threads().len() {
        add_thread(tables, t, events)?;
    }
    Ok(())
}
