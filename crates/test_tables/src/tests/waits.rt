//! Marks of the clock, and those who wait at the cells.

ghost use Rattle.std.specs.Prelude.{◌≡◌};

use super::{image, tables, waiter};
use std::test::Fail;
use um_base::{Addr, Answer, Ask, Errno, Reply, Row, ThreadIx, Timeout};
use um_service::{Outcome, Woken};
use um_tables::{FutexWait, FutexWake, Here, Look, Said, Seeker, Sites, Waiting};
use um_words::Mark;

/// The address of the object that the tests are about.
const OBJECT: Addr = Addr(0x4000_0000);

const WAITER: ThreadIx = ThreadIx(2);

/// A mark is given once, behind the tick to its deadline, and only if it is settled.
#[test]
fn a_settled_mark_is_given_once(rt: HostRuntime) -> Result<(), Fail> {
    let image = image(rt.alloc());
    let here = &here!(image, 0);
    let mut sites = tables(rt.alloc())?;
    let mark = Mark::Timer(Row(3));
    let other = Mark::Timer(Row(4));
    is_made!(rt, sites.arm(here, WAITER, 7, other), deadline => deadline == 7);
    is_made!(rt, sites.arm(here, WAITER, 5, mark), deadline => deadline == 5);
    is_made!(rt, sites.settle(here, 5, mark), () => true);
    assert!(rt; matches!(sites.give(here), Said::Busy));
    is_made!(rt, sites.tick(here, WAITER), () => true);
    is_made!(rt, sites.give(here), given => given == (5, mark));
    assert!(rt; matches!(sites.give(here), Said::Busy));
    is_made!(rt, sites.tick(here, WAITER), () => true);
    assert!(rt; matches!(sites.give(here), Said::Busy));
    assert!(rt; matches!(sites.tick(here, WAITER), Said::Busy));
    is_made!(rt, sites.settle(here, 7, other), () => true);
    is_made!(rt, sites.give(here), given => given == (7, other));
    Ok(())
}

/// The scheduler counts the marks that are owed.
#[test]
fn what_is_owed_is_paid(rt: HostRuntime) -> Result<(), Fail> {
    let image = image(rt.alloc());
    let here = &here!(image, 0);
    let mut sites = tables(rt.alloc())?;
    assert!(rt; matches!(sites.pay(here), Said::Busy));
    is_made!(rt, sites.owe(here), () => true);
    is_made!(rt, sites.pay(here), () => true);
    assert!(rt; matches!(sites.pay(here), Said::Busy));
    Ok(())
}

/// A look at the cell of that object for the waiter, which was aborted when its word had this number.
fn aborted(before: u32) -> Look {
    Look::Aborted {
        thread: ThreadIx(0),
        who: WAITER,
        before,
    }
}

/// A look finds an aborted thread that waits by an older note, and takes it out once.
#[test]
fn a_look_finds_who_waits_by_an_older_note(rt: HostRuntime) -> Result<(), Fail> {
    let image = image(rt.alloc());
    let here = &here!(image, 0);
    let mut sites = tables(rt.alloc())?;
    let mut outcome = Outcome::new();
    let cell = Waiting::Object(Row(3));
    let init = waiter(&Ask::SemInit { count: 0, limit: 1 });
    is_made!(rt, sites.work(here, Row(3), OBJECT, &init, 0, &mut outcome), () => outcome.answer == Answer::Now(Reply::Num(0)));
    let take = waiter(&Ask::SemTake {
        timeout: Timeout::Forever,
    });
    is_made!(rt, sites.work(here, Row(3), OBJECT, &take, 6, &mut outcome), () => outcome.answer == Answer::Wait);
    is_made!(rt, sites.look(here, cell, &aborted(6)), found => !found);
    is_made!(rt, sites.look(here, cell, &aborted(7)), found => found);
    is_made!(rt, sites.look(here, cell, &aborted(7)), found => !found);
    Ok(())
}

/// An address where no futex is.
const NOWHERE: Addr = Addr(0x2000_0000);

/// A wait there.
fn wait(allowed: bool) -> FutexWait
    ensures { result.seeker.thread.0 ≡ 2 }
{
    FutexWait {
        seeker: seeker(None),
        addr: NOWHERE,
        value: 0,
        allowed,
        timeout: Timeout::Forever,
    }
}

/// A wake there.
fn wake(allowed: bool) -> FutexWake {
    FutexWake {
        thread: WAITER,
        addr: NOWHERE,
        allowed,
        all: true,
    }
}

/// Where no futex is, a call on one is told so, but only if it may read there.
#[test]
fn a_call_on_no_futex_is_refused(rt: HostRuntime) -> Result<(), Fail> {
    let image = image(rt.alloc());
    let here = &here!(image, 0);
    let mut sites = tables(rt.alloc())?;
    let mut woken = Woken::new();
    let forbidden = Answer::Now(Reply::Fail(Errno::EACCES));
    let invalid = Answer::Now(Reply::Fail(Errno::EINVAL));
    is_made!(rt, sites.futex_wait(here, &wait(false)), said => said == forbidden);
    is_made!(rt, sites.futex_wake(here, &wake(false), &mut woken), said => said == forbidden);
    is_made!(rt, sites.futex_wait(here, &wait(true)), said => said == invalid);
    is_made!(rt, sites.futex_wake(here, &wake(true), &mut woken), said => said == invalid);
    Ok(())
}

/// The waiter, whose call armed this deadline, by a note of the number 3.
pub fn seeker(until: Option<u64>) -> Seeker
    ensures { result.thread.0 ≡ 2 }
{
    Seeker {
        thread: WAITER,
        priority: 0,
        until,
        noted: 3,
    }
}
