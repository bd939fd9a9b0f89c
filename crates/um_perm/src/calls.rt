//! Calls on the word of a row.

ghost use Rattle.std.specs.Prelude.{◌≡◌, true, IfOk, IsTrue};
ghost use Rattle.um_words.specs.Packed.{row_of};
ghost use Rattle.um_site.specs.{Calls.{Stays, AtRow, MayNext, Records}, Lives.{Cleans, CleansOnce}};
ghost use Rattle.um_perm.specs.Pairs.{row_act, answer_of, answer_by, asked_of, fits_row, IfDropped, is_to_clean, TellsCleaning};

use crate::answer::{Answer, Dropped, Passed, Set};
use std::marker::Brand;
use um_base::{Addr, Row, ThreadIx};
use um_site::{Asked, Board, Changed, Place, Seat};
use um_words::{Content, Local, RowAct, RowSaid, RowWord};

/// What a call does with the object of a row.
#[derive(Clone, Copy)]
pub enum RowCall {
    /// Gives a thread a permission, where the object stands (Zephyr: User Mode, Kernel Objects).
    Grant {
        who: ThreadIx,
        addr: Addr,
    },
    /// Gives a new thread the permission on its own object, if that still stands. In each case it holds the object for the thread's life.
    Own {
        who: ThreadIx,
    },
    /// Passes the caller's permission on to a new thread, if the caller has it and the child hasn't.
    Inherit {
        child: ThreadIx,
        addr: Addr,
    },
    /// Opens the object to all threads, if it still stands.
    Publish {
        addr: Addr,
    },
    /// Takes a thread's permission away. A dynamic object that loses its last permission is gone in the same step.
    /// `shown` says that a drop which finds no permission is an event too. Otherwise it is a visit that no trace shows.
    Drop {
        who: ThreadIx,
        is_shown: bool,
        addr: Addr,
    },
    /// Marks the object as initialised, if it still stands. `strict` says that it must not be initialised before.
    SetInit {
        strict: bool,
        addr: Addr,
    },
    /// Marks the object as uninitialised.
    ClearInit {
        addr: Addr,
    },
    /// Puts a dynamic object into a free row, with the permission of the thread that made it.
    Born {
        addr: Addr,
    },
    /// Frees the row of an object that this seat has cleaned.
    Vacate,
}

impl RowCall {
    /// Whether a row with this word takes the call.
    pub fn fits(self, word: &RowWord) -> bool
        ensures { result ≡ fits_row self word.now }
    {
        match self {
            RowCall::Own { .. } => word.claims < 127 && !word.is_free() && !word.is_cleaning(),
            RowCall::Inherit { .. } | RowCall::Drop { .. } => true,
            RowCall::Born { .. } => word.is_free(),
            RowCall::Vacate => word.is_cleaning() && word.claims == 0,
            _ => !word.is_free(),
        }
    }

    /// What the call asks of the word.
    fn act(self, by: ThreadIx) -> RowAct
        ensures { result ≡ asked_of by self }
    {
        let thread = by;
        match self {
            RowCall::Grant { who, addr } => RowAct::Grant { thread, who, addr },
            RowCall::Own { who } => RowAct::Own { thread, who },
            RowCall::Inherit { child: who, addr } => RowAct::Pass { thread, who, addr },
            RowCall::Publish { addr } => RowAct::Publish { thread, addr },
            RowCall::Drop {
                who,
                is_shown: true,
                addr,
            } => RowAct::DropPair { thread, who, addr },
            RowCall::Drop { who, addr, .. } => RowAct::Sweep { thread, who, addr },
            RowCall::SetInit { strict, addr } => RowAct::SetInit {
                thread,
                addr,
                strict,
            },
            RowCall::ClearInit { addr } => RowAct::ClearInit { thread, addr },
            RowCall::Born { addr } => RowAct::Born { thread, addr },
            RowCall::Vacate => RowAct::Vacate,
        }
    }

    /// The answer, by what the word says.
    fn answer(self, said: &RowSaid) -> Answer
        ensures { result ≡ answer_by self said.now }
    {
        match self {
            RowCall::Grant { .. } | RowCall::Own { .. } | RowCall::Publish { .. } => {
                Answer::Given(said.given)
            }
            RowCall::Inherit { .. } if said.visits => Answer::Passed(Passed::Nothing),
            RowCall::Inherit { .. } => Answer::Passed(Passed::Pair),
            RowCall::Drop { .. } => Answer::Dropped(Dropped::of(said.left, said.cleans)),
            RowCall::SetInit { .. } => Answer::Set(Set::of(said.set)),
            RowCall::ClearInit { .. } | RowCall::Born { .. } | RowCall::Vacate => Answer::Done,
        }
    }
}

/// A call on a row's word.
pub fn call_row<T: Content, L: Local>(
    board: &Board<T, L>,
    seat: &mut Seat<T>,
    row: Row,
    asked: Asked<RowCall>,
) -> Result<Answer, Changed>
    requires at { AtRow board.now.table.shared.table_id seat.old row.0 asked.seen }
    requires fits { IsTrue (fits_row asked.call (row_of asked.seen)) }
    requires cleans { asked.call ≡ RowCall.Vacate → Cleans row.0 seat.old.token.me.0 }
    requires goes { MayNext L.goes seat.old row.0 asked.seen
        (row_act asked.by asked.call (row_of asked.seen)) }
    ensures stays { Stays seat.old seat.new }
    ensures told { Records L.goes seat.old row.0 asked.seen
        (row_act asked.by asked.call (row_of asked.seen)) result seat.new }
    ensures answer { IfOk result (λ answer. answer ≡ answer_of asked.by asked.call (row_of asked.seen)) }
    ensures cleaner { IfOk result
        (λ answer. IfDropped answer
        (λ dropped. TellsCleaning row.0 asked.seen
        (row_act asked.by asked.call (row_of asked.seen)) seat.old.token.me.0 dropped seat.new.token.me.0
        × (is_to_clean dropped ≡ true → Cleans row.0 seat.new.token.me.0))) }
    ensures once { CleansOnce L.goes seat.old.token.me.0 row.0 }
{
    let act = asked.call.act(asked.by);
    let Some((next, said)) = act.step(asked.seen) else {
        unreachable!();
    };
    let about = (asked.by, asked.call);
    board.step_at::<Brand, _>(seat, Place::Row(row), asked.seen, next, &about)?;
    Ok(asked.call.answer(&said))
}
