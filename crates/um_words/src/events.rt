//! Events of steps that a trace shows.

ghost use Rattle.std.specs.Prelude.{◌≡◌, Some};
ghost use Rattle.um_base.specs.declared.act.Act.{Act};
ghost use Rattle.um_words.specs.ShownActs.{by_thread};

use um_base::{Act, Addr, Errno, Event, Kind, ThreadIx, Want};

/// An event of a thread, which a trace shows.
#[inline(always)]
pub fn shown(thread: ThreadIx, act: Act) -> Option<Event>
    ensures { result ≡ Some (by_thread thread act) }
{
    Some(Event { thread, act })
}

/// The event of a check, with its verdict.
#[inline(always)]
pub fn checked(
    thread: ThreadIx,
    addr: Addr,
    kind: Option<Kind>,
    want: Want,
    verdict: Option<Errno>,
) -> Option<Event>
    ensures { result ≡ Some (by_thread thread (Act.Check addr kind want verdict)) }
{
    shown(
        thread,
        Act::Check {
            addr,
            kind,
            want,
            verdict,
        },
    )
}
