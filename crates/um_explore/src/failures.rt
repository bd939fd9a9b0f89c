//! How the threads of a run failed.

ghost use Rattle.std.specs.Prelude.{◌≡◌, IsTrue, length, slice_set};
ghost use Rattle.um_explore.specs.Failures.{failures, noted};

use um_base::{Act, Cause, Event, THREADS};

/// How a thread failed: the number of the reason, as Zephyr has it, and the cause.
#[derive(Clone, Copy, PartialEq, Eq)]
pub struct Failure {
    pub reason: u8,
    pub cause: Cause,
}

/// Writes a place of a list, if the list has it.
fn put(failures: &mut [Option<Failure>], i: usize, failure: Option<Failure>)
    ensures { failures.new ≡ slice_set failures.old i failure }
{
    if i < failures.len() {
        failures[i] = failure;
    }
}

/// Takes an event into account: a thread fails, or a new one is started on its index.
pub(crate) fn note(failures: &mut [Option<Failure>], event: &Event)
    ensures { failures.new ≡ noted event.now failures.old }
{
    match event.act {
        Act::Fatal { reason, cause } => {
            put(
                failures,
                event.thread.0 as usize,
                Some(Failure { reason, cause }),
            );
        }
        Act::Start { who } => put(failures, who.0 as usize, None),
        _ => {}
    }
}

/// How each thread failed in a run of these events, by its index.
pub(crate) fn failures_of(events: &[Event]) -> [Option<Failure>; THREADS]
    ensures { result ≡ failures events.now }
{
    let mut failures = [None; THREADS];
    for event in events {
        note(&mut failures, event);
    }
    failures
}

/// Whether the same threads failed, and in the same way.
pub(crate) fn same_failures(a: &[Option<Failure>], b: &[Option<Failure>]) -> bool
    ensures { IsTrue result → a.now ≡ b.now }
{
    a == b
}
