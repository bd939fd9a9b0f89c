//! Turns that are given back.

ghost use Rattle.std.specs.Prelude.{◌≡◌, ℕ, ◌-◌, ◌≤◌, ◌∷◌, Some, None};
ghost use Rattle.um_words.specs.Steps.{WordMay};
ghost use Rattle.um_site.specs.{Calls.{SameSeat}, Tells.{HasTurn, returning}};
ghost use Rattle.um_cell.specs.Contents.{AtCell, HasPut, KeepsKin};
ghost use Rattle.atomic_table.specs.Table.{rest};

use crate::cells::Cells;
use crate::held::Held;
use um_site::{Board, Seat, Step};
use um_words::{Content, Local, step_number};

/// Puts the contents into the empty slot of a cell whose turn the seat has.
fn fill_slot<T: Content, L: Local>(board: &Board<T, L>, seat: &mut Seat<T>, cell: u16, contents: T)
    requires here { seat.old.token.table_id ≡ board.now.table.shared.table_id }
    requires cell { 168 ≤ cell }
    requires empty { seat.old.token.me.1 ≡ (cell - 168, None) ∷ rest seat.old.token.me.1 }
    ensures same { SameSeat seat.old seat.new }
    ensures filled { seat.new.token.me ≡
        (seat.old.token.me.0, (cell - 168, Some contents) ∷ rest seat.old.token.me.1) }
{
    let slot = (cell - 168) as usize;
    let emptied = board
        .table
        .shared
        .exchange(&mut seat.token, slot, Some(contents));
    let None = emptied else {
        unreachable!();
    };
}

impl<T: Content> Cells<T> {
    /// Records a step of a cell that leaves this word and these contents, and gives the turn back. The step itself, `D::made`, is ghost
    /// data. Returns the step's number.
    pub fn put<L: Local, D: Step>(
        &self,
        board: &Board<T, L>,
        seat: &mut Seat<T>,
        held: Held<T>,
        next: u64,
    ) -> u32
        requires at { AtCell board.now.table.shared.table_id seat.old self.now held.cell }
        requires step { D.made
            ≡ record { site = held.cell; act = D.made.act; word = next; moved = D.made.moved } }
        requires held { (old : T) × HasTurn T.opens T.follows seat.old.token.me held.cell held.word None old
            × T.follows old D.made.act D.made.moved held.contents }
        requires lawful { WordMay held.cell held.word D.made.act next }
        requires goes { L.goes seat.old.token.me.0.image seat.old.token.me.0.name seat.old.token.me.0.made D.made }
        ensures same { SameSeat seat.old seat.new }
        ensures kin { KeepsKin seat.old.token.me.0 seat.new.token.me.0 }
        ensures idle { seat.new.token.me.0.turn ≡ None }
        ensures told { HasPut L.goes seat.old.token.me held.word D.made result seat.new.token.me }
    {
        let Held { cell, contents, .. } = held;
        fill_slot(board, seat, cell, contents);
        board.record::<D>(seat, cell, next);
        step_number(cell, next)
    }

    /// Gives the turn of a cell back unchanged, and records nothing.
    pub fn put_quiet<L: Local>(&self, board: &Board<T, L>, seat: &mut Seat<T>, held: Held<T>)
        requires at { AtCell board.now.table.shared.table_id seat.old self.now held.cell }
        requires held { HasTurn T.opens T.follows seat.old.token.me held.cell held.word None held.contents }
        ensures same { SameSeat seat.old seat.new }
        ensures kin { KeepsKin seat.old.token.me.0 seat.new.token.me.0 }
        ensures idle { seat.new.token.me.0.turn ≡ None }
        ensures told { (seat.new.token.me.1 ≡ rest seat.old.token.me.1)
            × (seat.new.token.me.0
            ≡ returning seat.old.token.me.0 held.cell held.word seat.old.token.me.0.filled) }
    {
        let Held {
            cell,
            word,
            contents,
        } = held;
        fill_slot(board, seat, cell, contents);
        board.give_back(seat, cell, word);
    }
}
