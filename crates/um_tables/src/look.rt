//! Looks for threads that wait.

ghost use Rattle.std.specs.Prelude.{◌≡◌, ◌<◌, false, true, MatchOption};
ghost use Rattle.um_base.specs.declared.limits.TheConstants.{ROWS};
ghost use Rattle.um_fine.specs.{
  Seeking.{deadline_of, finds, is_number},
  Sites.{is_site, site_numbered},
};
ghost use Rattle.um_tables.specs.Looks.{is_waited_at, left_by, look_act, look_sent, site_in, sought_by};
ghost use Rattle.um_tables.specs.Asked.{event_of};
ghost use Rattle.um_fine.specs.Seeking.{looked_for};

use crate::slots::get_or;
use um_base::{Act, Event, Row, ThreadIx, Waiter};
use um_machine::Waiters;
use um_steps::waits::stands_in;
use um_words::shown;

/// A cell in which threads wait.
#[derive(Clone, Copy, PartialEq, Eq)]
pub enum Waiting {
    /// That of the object of a row.
    Object(Row),
    Memory,
    Joins,
}

/// A look for a thread that waits.
#[derive(Clone, Copy)]
pub enum Look {
    /// By this thread, for one that was aborted, if its note is older than this number.
    Aborted {
        thread: ThreadIx,
        who: ThreadIx,
        before: u32,
    },
    /// By this thread, for one that waits at this site to a deadline, which has come.
    Late {
        thread: ThreadIx,
        who: ThreadIx,
        deadline: u64,
        site: u16,
    },
}

impl Waiting {
    /// The cell of this site, if threads wait there.
    pub fn at(site: u16) -> Option<Waiting>
        ensures site { MatchOption result (is_waited_at site ≡ false) (λ cell. site_in cell ≡ site_numbered site) }
        ensures row { MatchOption result (Unit {0}) (λ cell. is_site (site_in cell) ≡ true) }
    {
        match site {
            0..168 => None,
            168..296 => Some(Waiting::Object(Row((site - 168) as u8))),
            296..304 => None,
            304 => Some(Waiting::Memory),
            305..308 => None,
            _ => Some(Waiting::Joins),
        }
    }
}

/// Whether a waiter waits to this deadline.
fn waits_until(waiter: &Waiter, deadline: u64) -> bool
    ensures { result ≡ is_number deadline waiter.now.until }
{
    match waiter.until {
        None => false,
        Some(until) => deadline == until,
    }
}

/// Whether a thread waits here to this deadline.
fn waits_to(who: ThreadIx, waiters: &[Waiter], deadline: u64) -> bool
    ensures { result ≡ is_number deadline (deadline_of who.0 waiters.now) }
{
    for i in 0..waiters.len() {
        let waiter = &waiters[i];
        if waiter.thread.0 == who.0 {
            return waits_until(waiter, deadline);
        }
    }
    false
}

impl Look {
    /// The thread that is looked for.
    pub fn sought(&self) -> ThreadIx
        ensures { result ≡ sought_by self.now }
    {
        match self {
            Look::Aborted { who, .. } => *who,
            Look::Late { who, .. } => *who,
        }
    }

    /// Whether it waits here.
    fn finds(&self, waiters: &[Waiter], noted: &[u32]) -> bool
        ensures { result ≡ finds waiters.now noted.now (look_sent self.now) }
    {
        match self {
            Look::Aborted { who, before, .. } => {
                stands_in(who.0 as usize, waiters) && get_or(noted, who.0 as usize, 0) < *before
            }
            Look::Late { who, deadline, .. } => waits_to(*who, waiters, *deadline),
        }
    }

    /// Takes the thread out, if it waits here. Returns whether it did.
    pub fn take_out(&self, waiters: &mut Waiters, noted: &[u32]) -> bool
        ensures found { result ≡ finds waiters.old noted.now (look_sent self.now) }
        ensures left { waiters.new ≡ left_by result self.now waiters.old }
    {
        let found = self.finds(waiters.as_slice(), noted);
        if found {
            waiters.remove(self.sought());
        }
        found
    }

    /// The event of the step, if it was found.
    pub fn event(&self, found: bool) -> Option<Event>
        ensures { result ≡ event_of (looked_for found (look_act self.now)) }
    {
        if !found {
            return None;
        }
        match *self {
            Look::Aborted { thread, who, .. } => shown(thread, Act::Cut { who }),
            Look::Late { thread, who, .. } => shown(thread, Act::TimedOut { who }),
        }
    }
}
