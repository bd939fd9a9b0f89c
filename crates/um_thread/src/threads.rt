//! Calls on the word of a thread.

ghost use Rattle.std.specs.Prelude.{◌≡◌, IsTrue};
ghost use Rattle.um_words.specs.Packed.{thread_in};
ghost use Rattle.um_site.specs.Calls.{thread_site, Stays, AtThread, MayNext};
ghost use Rattle.um_thread.specs.{Acts.{thread_act, asked_of_thread, forbids_thread, fits_thread, is_stopped}, Tells.{Tells}};

use crate::outcome::{Outcome, forbidden};
use std::marker::Brand;
use um_base::{Addr, Cause, DOMAINS, Kind, Mode, Reply, ThreadIx, Want};
use um_site::{Asked, Board, Changed, Place, Seat};
use um_words::{Content, Local, SITES, ThreadAct, ThreadWord};

/// What a call does with a thread.
#[derive(Clone, Copy)]
pub enum ThreadCall {
    /// It starts, in a mode and a domain.
    Start {
        mode: Mode,
        domain: u8,
    },
    /// It begins a line of a script, where nothing stops it.
    Begin {
        script: u8,
        line: u16,
    },
    /// Its call replies.
    Reply(Reply),
    /// Its check of an address where no object stands is refused.
    Miss {
        addr: Addr,
        kind: Option<Kind>,
        want: Want,
    },
    /// It fails, with the number of the reason as Zephyr has it.
    Fatal {
        reason: u8,
        cause: Cause,
    },
    /// It ends after its last line, where nothing stops it.
    Exit,
    /// It is doomed: it begins no other line.
    Doom,
    /// It is held: its domain stays as it is.
    Hold,
    /// It is let go: its domain may change again.
    LetGo,
    /// It moves to an initialised domain. It must not be held.
    Move {
        domain: u8,
    },
    /// It drops the rights of a supervisor for good.
    EnterUser,
    /// It is aborted, if it lives.
    Abort,
    /// It is suspended, if it lives.
    Suspend,
    /// It is no longer suspended, if it lives.
    Continue,
    /// It ends, as one that was aborted.
    Killed,
    /// The site of the cell in which its call may wait is noted.
    Note(u16),
    /// Its word is read, which changes the step number alone.
    ReadWord,
}

/// Whether a thread may begin no line and not end by itself.
fn is_stopped(thread: &ThreadWord) -> bool
    ensures { result ≡ is_stopped thread.now }
{
    thread.doomed || thread.aborted || thread.suspended
}

impl ThreadCall {
    /// What the call asks of the word of this thread.
    fn act(self, by: ThreadIx, who: ThreadIx) -> ThreadAct
        ensures { result ≡ asked_of_thread by who self }
    {
        let thread = by;
        match self {
            ThreadCall::Start { mode, domain } => ThreadAct::Start {
                thread,
                who,
                mode,
                domain,
            },
            ThreadCall::Begin { script, line } => ThreadAct::Begin {
                thread,
                script,
                line,
            },
            ThreadCall::Reply(reply) => ThreadAct::Answered { thread, reply },
            ThreadCall::Miss { addr, kind, want } => ThreadAct::Miss {
                thread,
                addr,
                kind,
                want,
                mode: Mode::User,
            },
            ThreadCall::Fatal { reason, cause } => ThreadAct::Fatal {
                thread,
                reason,
                cause,
            },
            ThreadCall::Exit => ThreadAct::Exit { thread },
            ThreadCall::Doom => ThreadAct::Doom { thread, who },
            ThreadCall::Hold => ThreadAct::Hold,
            ThreadCall::LetGo => ThreadAct::LetGo,
            ThreadCall::Move { domain } => ThreadAct::DomMove {
                thread,
                domain,
                who,
                reply: Reply::Num(0),
            },
            ThreadCall::EnterUser => ThreadAct::EnterUser { thread },
            ThreadCall::Abort => ThreadAct::Abort { thread, who },
            ThreadCall::Suspend => ThreadAct::Suspend { thread, who },
            ThreadCall::Continue => ThreadAct::Continue { thread, who },
            ThreadCall::Killed => ThreadAct::Killed { thread },
            ThreadCall::Note(site) => ThreadAct::Note(site),
            ThreadCall::ReadWord => ThreadAct::ReadWord,
        }
    }

    /// Whether a thread with this word takes the call, given that the word doesn't forbid it.
    pub fn fits(self, thread: &ThreadWord) -> bool
        ensures { result ≡ fits_thread self thread.now }
    {
        match self {
            ThreadCall::Start { domain, .. } | ThreadCall::Move { domain } => {
                usize::from(domain) < DOMAINS
            }
            ThreadCall::Begin { .. } | ThreadCall::Exit => {
                is_stopped(thread) || thread.is_living()
            }
            ThreadCall::Killed => thread.is_living() && thread.aborted,
            ThreadCall::Note(site) => site < SITES,
            ThreadCall::Hold => !thread.held,
            ThreadCall::LetGo => thread.held,
            _ => true,
        }
    }

    /// Whether the word forbids the call.
    fn is_forbidden(self, thread: &ThreadWord) -> bool
        ensures { result ≡ forbids_thread self thread.now }
    {
        match self {
            ThreadCall::Begin { .. } | ThreadCall::Exit => is_stopped(thread),
            ThreadCall::Move { .. } => thread.held,
            _ => false,
        }
    }
}

/// A call on a thread's word.
pub fn call_thread<T: Content, L: Local>(
    board: &Board<T, L>,
    seat: &mut Seat<T>,
    who: ThreadIx,
    asked: Asked<ThreadCall>,
) -> Result<Outcome<ThreadWord>, Changed>
    requires at { AtThread board.now.table.shared.table_id seat.old who.0 asked.seen }
    requires fits { IsTrue (fits_thread asked.call (thread_in asked.seen)) }
    requires goes { MayNext L.goes seat.old (thread_site who.0) asked.seen
        (thread_act (thread_in asked.seen) asked.by who asked.call) }
    ensures stays { Stays seat.old seat.new }
    ensures told { Tells L.goes seat.old (thread_site who.0) asked.seen
        (forbids_thread asked.call (thread_in asked.seen)) (thread_act (thread_in asked.seen) asked.by who asked.call)
        (thread_in asked.seen) result seat.new }
{
    let Some(before) = ThreadWord::unpack(asked.seen) else {
        unreachable!();
    };
    let place = Place::Thread(who);
    if asked.call.is_forbidden(&before) {
        return forbidden(board, seat, place, asked.seen);
    }
    let act = asked.call.act(asked.by, who);
    let Some(next) = act.step(asked.seen) else {
        unreachable!();
    };
    let about = (asked.by, who, asked.call);
    board.step_at::<Brand, _>(seat, place, asked.seen, next, &about)?;
    Ok(Outcome::Recorded { before })
}
