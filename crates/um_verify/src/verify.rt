//! The calls.

ghost use Rattle.std.specs.Prelude.{◌≡◌, ◌<◌, ◌&&◌, not, true, None, IfOk};
ghost use Rattle.um_words.specs.{Packed.{row_of}, Rows.{is_cleaning, verdict_of}};
ghost use Rattle.um_site.specs.{Calls.{Stays, AtRow, MayNext, Records}, Lives.{Cleans, CleansOnce}};
ghost use Rattle.um_verify.specs.Checks.{check_act, checked_of, end_act, cleans, TellsCleaning};

use std::marker::Brand;
use um_base::{Addr, Errno, Kind, Mode, Row, ThreadIx, Want};
use um_site::{Board, Changed, Place, Seat};
use um_words::{Content, Local, RowAct, RowSaid, RowWord};

/// What a check found.
#[derive(Clone, Copy, PartialEq, Eq)]
pub enum Checked {
    /// It passed, and the object is held until the call ends.
    Held,
    Refused(Errno),
}

fn to_checked(verdict: Option<Errno>) -> Checked
    ensures { result ≡ checked_of verdict }
{
    match verdict {
        None => Checked::Held,
        Some(e) => Checked::Refused(e),
    }
}

/// Checks an object for a thread: first whether it stands and has the wanted kind, then the thread's permission, then whether it is
/// initialised as wanted. `fits` says whether the row has the wanted kind.
pub fn check<T: Content, L: Local>(
    board: &Board<T, L>,
    seat: &mut Seat<T>,
    row: Row,
    who: ThreadIx,
    mode: Mode,
    kind: Option<Kind>,
    fits: bool,
    want: Want,
    addr: Addr,
    seen: u64,
) -> Result<Checked, Changed>
    requires at { AtRow board.now.table.shared.table_id seat.old row.0 seen }
    requires claims { (row_of seen).claims < 127 }
    requires kind { kind ≡ None → fits ≡ true }
    requires goes { MayNext L.goes seat.old row.0 seen (check_act who mode kind fits want addr seen) }
    ensures stays { Stays seat.old seat.new }
    ensures told { Records L.goes seat.old row.0 seen
        (check_act who mode kind fits want addr seen) result seat.new }
    ensures answer { IfOk result
        (λ checked. checked ≡ checked_of (verdict_of (row_of seen) who.0 mode fits want)) }
{
    let act = RowAct::Check {
        thread: who,
        addr,
        kind,
        want,
        mode,
        fits,
    };
    let Some((next, said)) = act.step(seen) else {
        unreachable!();
    };
    board.step_at::<Brand, _>(seat, Place::Row(row), seen, next, &act)?;
    Ok(to_checked(said.verdict))
}

/// Whether the row came to cleaning by the end of a claim: it is in cleaning now, and wasn't before.
fn begins(seen: u64, said: &RowSaid) -> bool
    ensures { result ≡ (said.now.cleans && not (is_cleaning (row_of seen).stage)) }
{
    said.cleans && !RowWord::read(seen).is_cleaning()
}

/// Ends a claim on an object. Returns whether it was the last claim on an object that is gone; then this seat has to clean the object.
pub fn end_call<T: Content, L: Local>(
    board: &Board<T, L>,
    seat: &mut Seat<T>,
    row: Row,
    seen: u64,
) -> Result<bool, Changed>
    requires at { AtRow board.now.table.shared.table_id seat.old row.0 seen }
    requires claim { 0 < (row_of seen).claims }
    requires goes { MayNext L.goes seat.old row.0 seen end_act }
    ensures stays { Stays seat.old seat.new }
    ensures told { Records L.goes seat.old row.0 seen end_act result seat.new }
    ensures answer { IfOk result (λ clean. clean ≡ cleans seen) }
    ensures cleaner { IfOk result
        (λ clean. TellsCleaning row.0 seen seat.old.token.me.0 clean seat.new.token.me.0) }
    ensures cleans { IfOk result (λ clean. clean ≡ true → Cleans row.0 seat.new.token.me.0) }
    ensures once { CleansOnce L.goes seat.old.token.me.0 row.0 }
{
    let act = RowAct::EndCall;
    let Some((next, said)) = act.step(seen) else {
        unreachable!();
    };
    let clean = begins(seen, &said);
    board.step_at::<Brand, _>(seat, Place::Row(row), seen, next, &act)?;
    Ok(clean)
}
