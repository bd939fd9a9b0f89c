//! The events that tables log.

use super::{EVENTS, image};
use std::test::Fail;
use um_base::{Act, Addr, Errno, Event, Kind, Mode, Row, ThreadIx, Want};
use um_tables::{HeapAct, Here, Said, Sites};
use um_words::RowAct;

/// A permission is passed on, and a second look finds it; another thread's check is refused. Reservations that nobody pays for fill the
/// log.
#[test]
fn events_are_logged_until_the_log_is_full(rt: HostRuntime) -> Result<(), Fail> {
    let image = image(rt.alloc());
    let here = &here!(image, 1);
    let there = &here!(image, 0);
    let mut sites = super::tables(rt.alloc())?;
    let thread = ThreadIx(3);
    let who = ThreadIx(4);
    let addr = Addr(0x4000_0000);
    let kind = Kind::Sem;
    let want = Want::Init;
    let pass = RowAct::Pass { thread, who, addr };
    let check = RowAct::Check {
        thread: ThreadIx(5),
        addr,
        kind: Some(kind),
        want,
        mode: Mode::User,
        fits: true,
    };
    for act in [&pass, &pass, &check] {
        assert!(rt; matches!(sites.row(there, Row(9), act), Said::Made(_)));
    }
    let reserve = HeapAct::Reserve { thread, kind };
    for _ in 2..EVENTS {
        assert!(rt; matches!(sites.heap(here, &reserve, None), Said::Made(_)));
    }
    assert!(rt; matches!(sites.heap(here, &reserve, None), Said::Changed));
    let inherited = Event {
        thread,
        act: Act::Inherit { who, addr },
    };
    let denied = Event {
        thread: ThreadIx(5),
        act: Act::Check {
            addr,
            kind: Some(kind),
            want,
            verdict: Some(Errno::EPERM),
        },
    };
    let unpaid = Event {
        thread,
        act: Act::Reserve { kind, addr: None },
    };
    match sites.events() {
        [first, second, third, ..] => assert!(rt;
            *first == inherited && *second == denied && *third == unpaid
        ),
        _ => assert!(rt; false),
    }
    assert!(rt; sites.into_events().len() == EVENTS);
    Ok(())
}
