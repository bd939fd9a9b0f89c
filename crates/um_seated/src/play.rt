//! A seat that makes steps of many kinds on one row.

ghost use Rattle.std.specs.Prelude.{◌≡◌, true, false};
ghost use Rattle.um_site.specs.Lives.{Cleans};
ghost use Rattle.um_seated.specs.Seats.{OnRow, Remains};

use crate::seated::{OBJECT, Seated};
use crate::tally::Tally;
use um_base::{Row, ThreadIx, Want};
use um_perm::{Answer, Dropped, RowCall};
use um_verify::Checked;
use um_words::{RowWord, Stage};

/// How often a step is tried at most.
const MOST_TRIES: u32 = 100_000_000;

/// Vacates the row that this seat has to clean.
fn clean(at: &mut Seated<'_>, row: Row, who: ThreadIx, tally: &mut Tally)
    requires on { OnRow at.old row.0 }
    requires cleans { Cleans row.0 at.old.seat.token.me.0 }
    ensures stays { Remains at.old at.new }
{
    tally.told = tally.told.saturating_add(1);
    'tries: for _ in 0..MOST_TRIES {
        match at.row(row, who, RowCall::Vacate) {
            Some(Ok(_)) => {
                tally.step();
                tally.cleaned = tally.cleaned.saturating_add(1);
                break;
            }
            Some(Err(_)) => {}
            None => break,
        }
    }
}

/// Makes a call on the row. Returns whether this seat now has to clean the object.
fn call_turn(at: &mut Seated<'_>, row: Row, by: ThreadIx, call: RowCall, tally: &mut Tally) -> bool
    requires on { OnRow at.old row.0 }
    requires cleans { call ≡ RowCall.Vacate → Cleans row.0 at.old.seat.token.me.0 }
    ensures stays { Remains at.old at.new }
    ensures cleans { result ≡ true → Cleans row.0 at.new.seat.token.me.0 }
{
    let Some(Ok(answer)) = at.row(row, by, call) else {
        return false;
    };
    tally.step();
    match answer {
        Answer::Dropped(Dropped::Gone { clean }) => {
            tally.gone = tally.gone.saturating_add(1);
            clean
        }
        Answer::Done => {
            tally.born = tally.born.saturating_add(1);
            false
        }
        _ => false,
    }
}

/// Ends a hold of its own. Returns whether this seat now has to clean the object.
fn end_turn(at: &mut Seated<'_>, row: Row, tally: &mut Tally) -> bool
    requires on { OnRow at.old row.0 }
    ensures stays { Remains at.old at.new }
    ensures cleans { result ≡ true → Cleans row.0 at.new.seat.token.me.0 }
{
    if tally.ended >= tally.held {
        return false;
    }
    let Some(Ok(is_last)) = at.end(row) else {
        return false;
    };
    tally.step();
    tally.ended = tally.ended.saturating_add(1);
    is_last
}

/// A check, which may hold the object. It leaves nothing to clean.
fn check_turn(at: &mut Seated<'_>, row: Row, who: ThreadIx, tally: &mut Tally) -> bool
    requires on { OnRow at.old row.0 }
    ensures stays { Remains at.old at.new }
    ensures nothing { result ≡ false }
{
    if let Some(Ok(checked)) = at.check(row, who, Want::Any) {
        tally.step();
        if checked == Checked::Held {
            tally.held = tally.held.saturating_add(1);
        }
    }
    false
}

/// Tries a step, by what stands in the row. Returns whether this seat now has to clean the object.
///
/// The thread plays with one other, and grants late where the object is gone.
fn turn(at: &mut Seated<'_>, row: Row, who: ThreadIx, number: u32, tally: &mut Tally) -> bool
    requires on { OnRow at.old row.0 }
    ensures stays { Remains at.old at.new }
    ensures cleans { result ≡ true → Cleans row.0 at.new.seat.token.me.0 }
{
    let seen = at.board.look(&mut at.seat, u16::from(row.0));
    let addr = OBJECT;
    let is_shown = true;
    let other = ThreadIx((who.0 ^ 1) % 32);
    match (RowWord::read(seen).stage, number % 5) {
        (Stage::Free, _) => call_turn(at, row, who, RowCall::Born { addr }, tally),
        (Stage::Live, 0) => check_turn(at, row, who, tally),
        (Stage::Live, 2) => call_turn(
            at,
            row,
            who,
            RowCall::Drop {
                who,
                is_shown,
                addr,
            },
            tally,
        ),
        (Stage::Live, 3) => {
            let call = RowCall::Drop {
                who: other,
                is_shown,
                addr,
            };
            call_turn(at, row, who, call, tally)
        }
        (_, 1) => call_turn(at, row, who, RowCall::Grant { who: other, addr }, tally),
        _ => end_turn(at, row, tally),
    }
}

/// This many steps on the row.
pub fn play(at: &mut Seated<'_>, row: Row, who: ThreadIx, steps: u32) -> Tally
    requires on { OnRow at.old row.0 }
    ensures stays { Remains at.old at.new }
{
    let mut tally = Tally::none();
    'tries: for number in 0..MOST_TRIES {
        if tally.steps >= steps {
            break;
        }
        if turn(at, row, who, number, &mut tally) {
            clean(at, row, who, &mut tally);
        }
    }
    tally
}
