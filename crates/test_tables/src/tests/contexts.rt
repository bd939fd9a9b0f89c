//! A thread's own part along a call.

use super::image;
use std::test::Fail;
use um_base::{
    Addr, Answer, Ask, Cause, Errno, Instr, Mode, Piece, Reply, Row, Term, ThreadIx, Timeout, Told,
};
use um_machine::{Pending, Place, Refusal};
use um_tables::{Context, Newborn};

/// The address of the first dynamic row, 96.
const SEM: Addr = Addr(0x4800_0000);

const WAITS: Timeout = Timeout::Forever;

/// The take of a semaphore that waits: the thread holds the semaphore from the check to the answer, and then is at rest.
#[test]
fn a_waiting_call_holds_its_object(rt: HostRuntime) -> Result<(), Fail> {
    let image = image(rt.alloc());
    let ask = Ask::SemTake { timeout: WAITS };
    let mut context = Context::idle();
    context.begins(
        &image,
        &Instr::SemTake {
            object: Term::Num(SEM.0),
            timeout: WAITS,
        },
    );
    assert!(rt; matches!(context.first(), Some(Pending::Check { addr: SEM, .. })));
    context.checks(&image, 96, Refusal::Fails, None, 1);
    assert!(rt; matches!(context.claims(), [96]));
    assert!(rt; context.first() == Some(Pending::Work { addr: SEM, ask }));
    context.works(&image, &ask, Answer::Wait, &Piece::new(), 1);
    assert!(rt; context.waits() && matches!(context.claims(), [96]));
    let told = Told {
        reply: Reply::Num(0),
        taken: Piece::new(),
    };
    context.resumes(&image, &told);
    assert!(rt;
        context.first()
            == Some(Pending::Answer {
                reply: None,
                to: None
            })
    );
    assert!(rt; context.reply_of(&image, None) == Reply::Num(0));
    context.answers(&image, None, None, 1);
    assert!(rt; context.first().is_none() && context.claims().is_empty() && !context.has_ended());
    Ok(())
}

/// A check that isn't ok: the thread holds nothing, and fails with the reason of a user's refused call.
#[test]
fn a_refused_check_holds_nothing(rt: HostRuntime) -> Result<(), Fail> {
    let image = image(rt.alloc());
    let mut context = Context::idle();
    context.checks(&image, 96, Refusal::Fails, Some(Errno::EPERM), 1);
    let fatal = Pending::Fatal {
        reason: 3,
        cause: Cause::Refused(Errno::EPERM),
    };
    assert!(rt; context.first() == Some(fatal) && context.second().is_none());
    assert!(rt; context.claims().is_empty());
    context.fails(&image, 3);
    assert!(rt; context.has_ended() && context.first() == Some(Pending::Drops { from: 0 }));
    Ok(())
}

/// A thread that is started is at rest on its stack and in its mode, whatever was there before.
#[test]
fn a_started_thread_is_at_rest(rt: HostRuntime) -> Result<(), Fail> {
    let image = image(rt.alloc());
    let mut born = Context::idle();
    born.fails(&image, 3);
    born.becomes(&Newborn {
        thread: ThreadIx(5),
        mode: Mode::Supervisor,
        stack: Row(7),
        priority: -3,
        pool: Some(1),
        place: Place {
            script: 2,
            line: 0,
            left: 0,
        },
    });
    assert!(rt; born.thread() == 5 && born.stack() == Row(7) && born.priority() == -3);
    assert!(rt;
        born.mode() == Mode::Supervisor && born.place().script == 2 && born.pool() == Some(1)
    );
    assert!(rt; born.first().is_none() && !born.has_ended());
    Ok(())
}
