//! Merges of small logs.

ghost use Rattle.std.specs.Prelude.{◌≡◌, ◌∷◌, [], None, Some, IfOk};

use super::*;
use crate::merging::merge;
use std::alloc::{AllocError, Global};
use std::test::Fail;
use um_base::{Act, Event, ThreadIx};

/// What the first step of a processor's log shows.
fn shown(cpu: u8) -> Event {
    let act = Act::Begin {
        script: cpu,
        line: 1,
    };
    let thread = ThreadIx(cpu);
    Event { thread, act }
}

/// The log of a processor with two steps, of which the first shows an event: each is told by its site, and by its number there.
fn log_of(
    alloc: Global,
    cpu: u8,
    first: (u16, u32),
    second: (u16, u32),
    event: Event,
) -> Result<Log, AllocError>
    ensures { IfOk result (λ log. log.items ≡ record { cpu = cpu; site = first.0; number = first.1; event = Some event } ∷ record { cpu = cpu; site = second.0; number = second.1; event = None } ∷ []) }
{
    let mut log = Log::with_room(alloc, 2)?;
    log.note(cpu, first.0, first.1, &Some(event));
    log.note(cpu, second.0, second.1, &None);
    Ok(log)
}

#[test]
fn steps_of_two_processors_are_merged(rt: HostRuntime) -> Result<(), Fail> {
    let alloc = rt.alloc();
    let first = log_of(alloc, 0, (5, 2), (6, 1), shown(0))?;
    let second = log_of(alloc, 1, (5, 1), (6, 2), shown(1))?;
    let mut merged = Log::with_room(alloc, 4)?;
    merge(&[first, second], &mut merged);
    assert_eq!(rt; merged.len(), 4);
    let wanted = [(5, 1), (5, 2), (6, 1), (6, 2)];
    for at in 0..4 {
        if at < merged.len() {
            assert_eq!(rt; merged.place(at), wanted[at]);
        }
    }
    let events = merged.into_events();
    let wanted = [shown(1), shown(0)];
    assert!(rt; events.as_slice() == wanted.as_slice());
    Ok(())
}

#[test]
fn no_logs_merge_to_nothing(rt: HostRuntime) -> Result<(), Fail> {
    let mut merged = Log::with_room(rt.alloc(), 1)?;
    merge(&[], &mut merged);
    assert_eq!(rt; merged.len(), 0);
    Ok(())
}
