//! A log of events, in room that is reserved, and the events of steps at cells.

ghost use Rattle.std.specs.Prelude.{◌≡◌, ◌<◌, ◌≤◌, ◌++◌, ◌∷◌, [], length, nat_le, vec_capacity, None, Some, if◌then◌else◌};
ghost use Rattle.um_base.specs.declared.act.Act.{Act};
ghost use Rattle.um_machine.specs.{Order.{to_thread}, Table.{replies_of}};
ghost use Rattle.um_tables.specs.{Asked.{by_thread}, Sited.{logged}};

use crate::futex_act::{FutexWait, FutexWake};
use um_base::{Act, Addr, Answer, Event, ThreadIx, Waiter};
use um_service::{Outcome, Woken};

/// Whether the log has no room for one more event.
pub fn is_full(log: &Vec<Event>) -> bool
    ensures { result ≡ nat_le (vec_capacity log.now) (length log.now.items) }
{
    log.capacity() <= log.len()
}

/// Appends the event of a step, if it has one. It takes no memory.
pub fn note(log: &mut Vec<Event>, event: Option<Event>)
    requires { length log.old.items < vec_capacity log.old }
    ensures events { log.new.items ≡ logged log.old.items event }
    ensures room { vec_capacity log.new ≡ vec_capacity log.old }
    ensures grows { length log.old.items ≤ length log.new.items }
{
    if let Some(Event { thread, act }) = event {
        log.push_reserved(Event { thread, act });
    }
}

/// The event of a call's work with this outcome.
pub fn worked(addr: Addr, who: &Waiter, outcome: &Outcome) -> Event
    ensures { result ≡ by_thread who.now.thread
        (Act.Work addr outcome.now.answer (replies_of outcome.now.woken)) }
{
    Event {
        thread: who.thread,
        act: Act::Work {
            addr,
            answer: outcome.answer,
            woken: outcome.woken.replies(),
        },
    }
}

/// The event of a thread that gives a thread object a name.
pub fn named(thread: ThreadIx, who: ThreadIx) -> Event
    ensures { result ≡ by_thread thread (Act.Named who) }
{
    Event {
        thread,
        act: Act::Named { who },
    }
}

/// The event of a thread that was woken and goes on.
pub fn resumed(thread: u8, woken: bool) -> Option<Event>
    ensures { result ≡ (if woken then Some (by_thread (to_thread thread) Act.Resume) else None) }
{
    if !woken {
        return None;
    }
    Some(Event {
        thread: ThreadIx(thread),
        act: Act::Resume,
    })
}

/// The event of a thread that arms a deadline.
pub fn armed(thread: ThreadIx, deadline: u64) -> Event
    ensures { result ≡ by_thread thread (Act.Arm deadline) }
{
    Event {
        thread,
        act: Act::Arm { deadline },
    }
}

/// The event of time that goes on, by a thread.
pub fn ticked(thread: ThreadIx, now: u64) -> Event
    ensures { result ≡ by_thread thread (Act.Tick now) }
{
    Event {
        thread,
        act: Act::Tick { now },
    }
}

/// The event of a thread that asks for the end of another one.
pub fn joined(thread: ThreadIx, who: ThreadIx, answer: Answer) -> Event
    ensures { result ≡ by_thread thread (Act.Join who answer) }
{
    Event {
        thread,
        act: Act::Join { who, answer },
    }
}

/// The event of the end of a thread for which somebody waits.
pub fn left(who: ThreadIx, woken: &Woken, joined: bool) -> Option<Event>
    ensures { result ≡ (if joined then Some (by_thread who (Act.Left who (replies_of woken.now))) else None) }
{
    if !joined {
        return None;
    }
    Some(Event {
        thread: who,
        act: Act::Left {
            who,
            woken: woken.replies(),
        },
    })
}

/// The event of a timer that runs out, if it does.
pub fn expired(thread: ThreadIx, addr: Addr, woken: &Woken, found: bool) -> Option<Event>
    ensures { result ≡ (if found then Some (by_thread thread (Act.Expire addr (replies_of woken.now))) else None) }
{
    if !found {
        return None;
    }
    Some(Event {
        thread,
        act: Act::Expire {
            addr,
            woken: woken.replies(),
        },
    })
}

/// The event of a wait on a futex.
pub fn waited(act: &FutexWait, answer: Answer) -> Event
    ensures { result ≡ by_thread act.now.seeker.thread (Act.FutexWait act.now.addr act.now.value answer) }
{
    Event {
        thread: act.seeker.thread,
        act: Act::FutexWait {
            addr: act.addr,
            value: act.value,
            answer,
        },
    }
}

/// The event of a wake of those who wait on a futex.
pub fn woke(act: &FutexWake, answer: Answer, woken: &Woken) -> Event
    ensures { result ≡ by_thread act.now.thread (Act.FutexWake act.now.addr answer (replies_of woken.now)) }
{
    Event {
        thread: act.thread,
        act: Act::FutexWake {
            addr: act.addr,
            answer,
            woken: woken.replies(),
        },
    }
}
