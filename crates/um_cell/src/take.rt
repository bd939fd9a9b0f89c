//! Turns that are taken.

ghost use Rattle.std.specs.Prelude.{◌≡◌, ◌%◌, MatchResult, Some, None};
ghost use Rattle.atomic_table.specs.Table.{rest};
ghost use Rattle.um_site.specs.{Calls.{SameSeat, Stays}, Tells.{HasTurn, Looked, Took}};
ghost use Rattle.um_cell.specs.Contents.{AtCell, KnowsFilled, KeepsKin};

use crate::cells::Cells;
use crate::held::{Busy, Held};
use um_site::{Board, Seat};
use um_words::{Content, Local};

impl<T: Content> Cells<T> {
    /// Takes the turn of a cell with its contents, if no other seat has it.
    pub fn take<L: Local>(
        &self,
        board: &Board<T, L>,
        seat: &mut Seat<T>,
        cell: u16,
    ) -> Result<Held<T>, Busy>
        requires at { AtCell board.now.table.shared.table_id seat.old self.now cell }
        requires filled { KnowsFilled self.now seat.old.token.me.0 }
        requires idle { seat.old.token.me.0.turn ≡ None }
        ensures same { SameSeat seat.old seat.new }
        ensures kin { KeepsKin seat.old.token.me.0 seat.new.token.me.0 }
        ensures held { MatchResult result
            (λ h. (h.cell ≡ cell) × HasTurn T.opens T.follows seat.new.token.me cell h.word None h.contents)
            (λ b. Stays seat.old seat.new) }
        ensures slots { MatchResult result (λ h. rest seat.new.token.me.1 ≡ seat.old.token.me.1)
            (λ b. seat.new.token.me.1 ≡ seat.old.token.me.1) }
        ensures told { MatchResult result
            (λ h. (h.word % 2 ≡ 0)
            × Took T.opens T.follows L.goes seat.old.token.me.0 cell h.word
            (Some (h.contents)) seat.new.token.me.0)
            (λ b. (b.word % 2 ≡ 1) × Looked L.goes seat.old.token.me.0 cell b.word seat.new.token.me.0) }
    {
        let word = board.take_turn(seat, cell);
        if word % 2 == 1 {
            return Err(Busy { word });
        }
        let slot = (cell - 168) as usize;
        match board.table.shared.exchange(&mut seat.token, slot, None) {
            Some(contents) => Ok(Held {
                cell,
                word,
                contents,
            }),
            None => unreachable!(),
        }
    }
}
