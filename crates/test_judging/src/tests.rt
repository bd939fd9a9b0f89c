//! Each kind of event as the machine makes it, and the same event with one field wrong.

mod audited;
mod changed;
mod told;
mod values;

ghost use Rattle.std.specs.Prelude.{◌<◌};
ghost use Rattle.um_machine.specs.Limits.{IsSound};

use changed::changed;
use std::alloc::Global;
use std::process::Abort;
use std::test::Fail;
use um_base::{Act, Event, THREADS, ThreadIx};
use um_image::read_image;
use um_machine::Pending;
use um_matrix::{Matrix, Tables};
use um_samples::{DOMAINS, FUTEX_WAKE, HALT, OBJECTS, RACE, described};

/// How many kinds of events there are.
const KINDS: usize = 49;

/// `a` waits in vain for a semaphore, and then for a timer; `b` waits longer, and `c` ends before the timer that it starts.
const TIMED: &str = described!(
    "domain = [{name = \"d\", partitions = []}]
object = [{name = \"a\", kind = \"thread\"}, {name = \"sa\", kind = \"thread_stack\", size = 64},
 {name = \"b\", kind = \"thread\"}, {name = \"sb\", kind = \"thread_stack\", size = 64},
 {name = \"c\", kind = \"thread\"}, {name = \"sc\", kind = \"thread_stack\", size = 64},
 {name = \"s\", kind = \"sem\", count = 0, limit = 1}, {name = \"w\", kind = \"timer\"}, {name = \"u\", kind = \"timer\"}]
boot = [{thread = \"a\", stack = \"sa\", script = \"ca\", priority = 0, domain = \"d\", grants = [\"s\", \"w\"]},
 {thread = \"b\", stack = \"sb\", script = \"cb\", priority = 0, domain = \"d\", grants = [\"s\"]},
 {thread = \"c\", stack = \"sc\", script = \"cc\", priority = 0, domain = \"d\", grants = [\"u\"]}]
script = [{name = \"ca\", lines = [\"k_sem_take @s K_TICKS(2)\", \"k_timer_start @w 3\", \"k_timer_status_sync @w r0\"]},
 {name = \"cb\", lines = [\"k_sem_take @s K_TICKS(4)\"]},
 {name = \"cc\", lines = [\"k_timer_start @u 9\"]}]
"
);

/// `a` joins `b`, which waits; `c` suspends `b`, lets it continue and aborts it.
const STOPPED: &str = described!(
    "domain = [{name = \"d\", partitions = []}]
object = [{name = \"a\", kind = \"thread\"}, {name = \"sa\", kind = \"thread_stack\", size = 64},
 {name = \"b\", kind = \"thread\"}, {name = \"sb\", kind = \"thread_stack\", size = 64},
 {name = \"c\", kind = \"thread\"}, {name = \"sc\", kind = \"thread_stack\", size = 64},
 {name = \"s\", kind = \"sem\", count = 0, limit = 1}]
boot = [{thread = \"a\", stack = \"sa\", script = \"ca\", priority = 0, domain = \"d\", grants = [\"b\"]},
 {thread = \"b\", stack = \"sb\", script = \"cb\", priority = 0, domain = \"d\", grants = [\"s\"]},
 {thread = \"c\", stack = \"sc\", script = \"cc\", priority = 0, domain = \"d\", grants = [\"b\"]}]
script = [{name = \"ca\", lines = [\"k_thread_join @b K_FOREVER\"]},
 {name = \"cb\", lines = [\"k_sem_take @s K_FOREVER\"]},
 {name = \"cc\", lines = [\"k_thread_suspend @b\", \"k_thread_resume @b\", \"k_thread_abort @b\"]}]
"
);

/// More fields than any event has.
const FIELDS: usize = 5;

/// The number of an event's kind.
fn kind_of(act: &Act) -> usize {
    match act {
        Act::Begin { .. } => 0,
        Act::Check { .. } => 1,
        Act::Load { .. } => 2,
        Act::Store { .. } => 3,
        Act::Fetch { .. } => 4,
        Act::Fault { .. } => 5,
        Act::Probe { .. } => 6,
        Act::CopyIn { .. } => 7,
        Act::CopyOut { .. } => 8,
        Act::CopyStr { .. } => 9,
        Act::Erase { .. } => 10,
        Act::Work { .. } => 11,
        Act::Resume => 12,
        Act::Answered { .. } => 13,
        Act::Grant { .. } => 14,
        Act::Own { .. } => 15,
        Act::Inherit { .. } => 16,
        Act::DropPair { .. } => 17,
        Act::Publish { .. } => 18,
        Act::SetInit { .. } => 19,
        Act::ClearInit { .. } => 20,
        Act::Named { .. } => 21,
        Act::Reserve { .. } => 22,
        Act::Born { .. } => 23,
        Act::Buffer { .. } => 24,
        Act::Unbuffer { .. } => 25,
        Act::Recycle { .. } => 26,
        Act::DomInit { .. } => 27,
        Act::DomAdd { .. } => 28,
        Act::DomRemove { .. } => 29,
        Act::DomMove { .. } => 30,
        Act::Start { .. } => 31,
        Act::EnterUser => 32,
        Act::Fatal { .. } => 33,
        Act::Doom { .. } => 34,
        Act::Exit => 35,
        Act::Arm { .. } => 36,
        Act::Tick { .. } => 37,
        Act::TimedOut { .. } => 38,
        Act::Expire { .. } => 39,
        Act::Abort { .. } => 40,
        Act::Suspend { .. } => 41,
        Act::Continue { .. } => 42,
        Act::Cut { .. } => 43,
        Act::Killed => 44,
        Act::Join { .. } => 45,
        Act::Left { .. } => 46,
        Act::FutexWait { .. } => 47,
        Act::FutexWake { .. } => 48,
    }
}

/// What a thread says by a step, with the first row that it may choose.
fn act_with(ahead: &Tables<'_>, t: usize, step: &Pending) -> Option<Act>
    requires thread { t < THREADS }
    requires sound { IsSound step.now }
{
    for x in 0..ahead.row_count(step) {
        if ahead.may_choose(t, x, step) {
            return Some(ahead.says(t, x, step));
        }
    }
    None
}

/// What a thread says by its next step, or by the one after it where that may be left out.
fn act_by(ahead: &Tables<'_>, t: usize) -> Option<Act>
    requires { t < THREADS }
{
    let step = match ahead.next_step(t) {
        None => return ahead.rest_act(t),
        Some(step) => step,
    };
    match act_with(ahead, t, &step) {
        Some(act) => Some(act),
        None => match ahead.second_step(t) {
            Some(step) => act_with(ahead, t, &step),
            None => None,
        },
    }
}

/// The next event of one of the threads from this one on, or what cleans.
fn event_from(ahead: &Matrix<'_>, first: u8) -> Option<Event> {
    for k in 0..3 {
        let thread = (first % 3 + k) % 3;
        if let Some(act) = act_by(ahead.tables(), thread as usize) {
            return Some(Event {
                thread: ThreadIx(thread),
                act,
            });
        }
    }
    ahead.next_event()
}

/// The next event, made by a machine that runs ahead: the next step of one of the threads from this one on, or what cleans.
fn next(ahead: &mut Matrix<'_>, first: u8) -> Option<Event> {
    let event = event_from(ahead, first)?;
    match ahead.apply(&event) {
        Ok(()) => Some(event),
        Err(_) => None,
    }
}

/// The judge refuses an event with any of its fields wrong, and takes it as it is.
fn is_judged(rt: &impl Abort, judge: &mut Matrix<'_>, event: &Event) {
    let kind = kind_of(&event.act);
    for field in 0..FIELDS {
        if let Some(act) = changed(&event.act, field) {
            let wrong = Event {
                thread: event.thread,
                act,
            };
            assert!(rt; judge.apply(&wrong).is_err(), "kind {kind} field {field}");
        }
    }
    let stranger = Event {
        thread: ThreadIx(31),
        act: event.act,
    };
    assert!(rt; judge.apply(&stranger).is_err(), "kind {kind} thread");
    assert!(rt; judge.apply(event).is_ok(), "kind {kind}");
}

/// Judges a run of three threads that take turns by one event. The kinds of its events are marked.
fn judged(rt: &impl Abort, alloc: Global, text: &str, seen: &mut [bool]) -> Result<(), Fail> {
    let image = match read_image(alloc, text.as_bytes()) {
        Ok(image) => image,
        Err(_) => return Err(Fail::new("refused")),
    };
    let mut ahead = Matrix::boot(alloc, &image)?;
    let mut judge = Matrix::boot(alloc, &image)?;
    for turn in 0..200 {
        match next(&mut ahead, turn) {
            Some(event) => {
                assert!(rt; !judge.is_final(), "event {turn}");
                is_judged(rt, &mut judge, &event);
                if let Some(mark) = seen.get_mut(kind_of(&event.act)) {
                    *mark = true;
                }
            }
            None => {}
        }
    }
    assert!(rt; judge.is_final());
    Ok(())
}

#[test]
fn each_kind_of_event_is_judged(rt: HostRuntime) -> Result<(), Fail> {
    let mut seen = [false; KINDS];
    for text in [DOMAINS, OBJECTS, RACE, HALT, TIMED, STOPPED, FUTEX_WAKE] {
        judged(&rt, rt.alloc(), text, &mut seen)?;
    }
    for (kind, mark) in seen.iter().enumerate() {
        assert!(rt; *mark, "kind {kind}");
    }
    Ok(())
}
