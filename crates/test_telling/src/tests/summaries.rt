//! The summary of acts, and of a run to its end.

use super::image_of;
use std::alloc::Global;
use std::test::Fail;
use um_base::{Act, Addr, Answer, Cause, Errno, Event, Image, Replies, Reply, ThreadIx, Want};
use um_matrix::Matrix;
use um_samples::LAST_BYTE;
use um_trace::{SUMMARY_ROOM, summary_text};

/// A check of an object with this verdict.
fn check(verdict: Option<Errno>) -> Act {
    Act::Check {
        addr: Addr(0),
        kind: None,
        want: Want::Any,
        verdict,
    }
}

/// Work that answers so.
fn work(answer: Answer) -> Act {
    Act::Work {
        addr: Addr(0),
        answer,
        woken: Replies::new(),
    }
}

/// The summary of a run.
fn summary_of(
    alloc: Global,
    image: &Image,
    events: &[Event],
    last: &Matrix<'_>,
) -> Result<Vec<u8>, Fail> {
    let mut room = Vec::with_capacity(alloc, SUMMARY_ROOM)?;
    summary_text(image, events, last.tables(), &mut room);
    Ok(room)
}

#[test]
fn acts_are_counted(rt: HostRuntime) -> Result<(), Fail> {
    let image = image_of(rt.alloc(), LAST_BYTE)?;
    let last = Matrix::boot(rt.alloc(), &image)?;
    let mut events = Vec::new(rt.alloc());
    for act in [
        Act::Begin { script: 0, line: 1 },
        check(None),
        work(Answer::Wait),
        Act::Begin { script: 0, line: 1 },
        check(None),
        work(Answer::Now(Reply::Num(0))),
        Act::Resume,
        Act::Begin { script: 0, line: 2 },
        check(Some(Errno::EPERM)),
        Act::Fatal {
            reason: 3,
            cause: Cause::Refused(Errno::EPERM),
        },
        Act::Recycle { addr: Addr(0) },
        Act::Recycle { addr: Addr(1) },
        Act::Exit,
    ] {
        events.push(Event {
            thread: ThreadIx(0),
            act,
        })?;
    }
    let summary = summary_of(rt.alloc(), &image, &events, &last)?;
    assert_eq!(rt;
        summary.as_slice(),
        "events 13\nbegins 3\nchecks 3\nrefused 1\nfatals 1\nwaits 1\nrecycles 2\nended 0\nwaiting 0\n".as_bytes()
    );
    Ok(())
}

#[test]
fn a_whole_run_is_summed_up(rt: HostRuntime) -> Result<(), Fail> {
    let image = image_of(rt.alloc(), LAST_BYTE)?;
    let mut matrix = Matrix::boot(rt.alloc(), &image)?;
    let mut events = Vec::new(rt.alloc());
    for _ in 0..64 {
        if let Some(event) = matrix.next_event() {
            assert!(rt; matrix.apply(&event).is_ok());
            events.push(event)?;
        }
    }
    let summary = summary_of(rt.alloc(), &image, &events, &matrix)?;
    assert_eq!(rt;
        summary.as_slice(),
        "events 8\nbegins 2\nchecks 0\nrefused 0\nfatals 1\nwaits 0\nrecycles 0\nended 1\nwaiting 0\n".as_bytes()
    );
    Ok(())
}
