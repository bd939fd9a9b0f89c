//! Cells that are filled with the contents with which they open.

ghost use Rattle.std.specs.Prelude.{◌≡◌, ℕ, ◌+◌, ◌<◌, ◌≤◌, ◌∷◌, true, length, None};
ghost use Rattle.um_site.specs.{Calls.{SameSeat}, Cells.{AmongCells, NoSteps, NoneOfThem}};
ghost use Rattle.um_cell.specs.Contents.{KnowsFilled, Opens, SameView};

use crate::cells::Cells;
use std::marker::PhantomData;
use um_site::{Board, Seat};
use um_words::{Content, Local};

/// Puts the contents into the slot of a cell.
fn fill<T: Content + Drop, L: Local>(
    board: &Board<T, L>,
    seat: &mut Seat<T>,
    cell: u16,
    contents: T,
)
    requires here { seat.old.token.table_id ≡ board.now.table.shared.table_id }
    requires cell { (168 ≤ cell) × (cell < board.now.table.shared.table_id.words)
        × (cell < 168 + board.now.table.shared.table_id.slots) }
    requires alone { (seat.old.first ≡ true) × (seat.old.split ≡ seat.old.joined) }
    requires idle { seat.old.token.me.0.turn ≡ None }
    requires unstepped { NoSteps cell seat.old.token.me.0.made × NoneOfThem cell seat.old.token.me.0.joined }
    requires opens { T.opens seat.old.token.me.0.image cell contents }
    ensures same { SameSeat seat.old seat.new }
    ensures view { SameView seat.old.token.me.0 seat.new.token.me.0 }
    ensures slots { seat.new.token.me.1 ≡ seat.old.token.me.1 }
    ensures filled { seat.new.token.me.0.filled ≡ cell ∷ seat.old.token.me.0.filled }
{
    let word = board.reach_turn(seat, cell);
    let slot = (cell - 168) as usize;
    let old = board
        .table
        .shared
        .exchange(&mut seat.token, slot, Some(contents));
    drop(old);
    board.give_filled(seat, cell, word);
}

impl<T: Content + Drop> Cells<T> {
    /// Fills the cells from this site on with the contents with which they open, one each. It takes no memory, since the slots are the
    /// board's.
    pub fn make<L: Local>(
        board: &Board<T, L>,
        seat: &mut Seat<T>,
        first: u16,
        contents: Vec<T>,
    ) -> Cells<T>
        requires here { seat.old.token.table_id ≡ board.now.table.shared.table_id }
        requires cells { (168 ≤ first)
            × (first + length contents.items ≤ board.now.table.shared.table_id.words)
            × (first + length contents.items ≤ 168 + board.now.table.shared.table_id.slots) }
        requires few { first + length contents.items < 65536 }
        requires alone { (seat.old.first ≡ true) × (seat.old.split ≡ seat.old.joined) }
        requires idle { seat.old.token.me.0.turn ≡ None }
        requires unstepped { (i : ℕ) → first ≤ i → i < first + length contents.items
            → NoSteps i seat.old.token.me.0.made × NoneOfThem i seat.old.token.me.0.joined }
        requires opens { Opens T.opens seat.old.token.me.0.image first contents.items }
        ensures cells { (result.first ≡ first) × (result.count ≡ length contents.items) }
        ensures same { SameSeat seat.old seat.new }
        ensures view { SameView seat.old.token.me.0 seat.new.token.me.0 }
        ensures slots { seat.new.token.me.1 ≡ seat.old.token.me.1 }
        ensures filled { KnowsFilled result seat.new.token.me.0 }
    {
        let mut contents = contents;
        let count = contents.len() as u16;
        while let Some(last) = contents.pop() {
            fill(board, seat, first + contents.len() as u16, last);
        }
        Cells {
            first,
            count,
            contents: PhantomData,
        }
    }
}
