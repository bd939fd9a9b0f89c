//! Joins, and threads that sleep.

use super::waits::seeker;
use super::{image, tables};
use std::test::Fail;
use um_base::{Answer, Errno, Reply, ThreadIx, Timeout};
use um_service::Woken;
use um_tables::{Context, Here, Look, Said, Sites, Waiting};

const TARGET: ThreadIx = ThreadIx(5);

/// A join waits for the end of its target, which wakes it. From then on the target is shut, until it is started again.
#[test]
fn an_end_wakes_who_joins(rt: HostRuntime) -> Result<(), Fail> {
    let image = image(rt.alloc());
    let here = &here!(image, 0);
    let mut sites = tables(rt.alloc())?;
    let mut woken = Woken::new();
    let joined = seeker(None);
    let over = Answer::Now(Reply::Num(0));
    let busy = Answer::Now(Reply::Fail(Errno::EBUSY));
    let own = Answer::Now(Reply::Fail(Errno::EDEADLK));
    is_made!(rt, sites.join(here, &joined, TARGET, Timeout::NoWait), said => said == busy);
    is_made!(rt, sites.join(here, &joined, joined.thread, Timeout::Forever), said => said == own);
    is_made!(rt, sites.join(here, &joined, TARGET, Timeout::Forever), said => said == Answer::Wait);
    is_made!(rt, sites.leave(here, TARGET, &mut woken), found => found && woken.len() == 1);
    is_made!(rt, sites.leave(here, TARGET, &mut woken), found => !found && woken.len() == 0);
    is_made!(rt, sites.join(here, &joined, TARGET, Timeout::Forever), said => said == over);
    is_made!(rt, sites.unshut(here, TARGET), () => true);
    is_made!(rt, sites.join(here, &joined, TARGET, Timeout::Forever), said => said == Answer::Wait);
    Ok(())
}

/// A look at the joins' cell for a thread whose wait ended at this deadline.
fn late(who: ThreadIx, deadline: u64) -> Look {
    Look::Late {
        thread: TARGET,
        who,
        deadline,
        site: 308,
    }
}

/// A join ends at its deadline, and not at another one.
#[test]
fn a_join_ends_at_its_deadline(rt: HostRuntime) -> Result<(), Fail> {
    let image = image(rt.alloc());
    let here = &here!(image, 0);
    let mut sites = tables(rt.alloc())?;
    let joined = seeker(Some(4));
    is_made!(rt, sites.join(here, &joined, TARGET, Timeout::Ticks(4)), said => said == Answer::Wait);
    is_made!(rt, sites.look(here, Waiting::Joins, &late(joined.thread, 5)), found => !found);
    is_made!(rt, sites.look(here, Waiting::Joins, &late(joined.thread, 4)), found => found);
    is_made!(rt, sites.look(here, Waiting::Joins, &late(joined.thread, 4)), found => !found);
    Ok(())
}

/// A thread that sleeps is roused once.
#[test]
fn a_sleeper_is_roused_once(rt: HostRuntime) -> Result<(), Fail> {
    let image = image(rt.alloc());
    let here = &here!(image, 0);
    let mut sites = tables(rt.alloc())?;
    let mut context = Box::new(rt.alloc(), Context::idle())?;
    let who = ThreadIx(context.thread());
    is_made!(rt, sites.sleep(here, &mut context), () => true);
    is_made!(rt, sites.rouse(here, who, &mut context), found => found);
    is_made!(rt, sites.rouse(here, who, &mut context), found => !found);
    Ok(())
}
