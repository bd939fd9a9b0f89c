//! Turns of cells: how a seat takes one, and how it gives it back with a step or without.

ghost use Rattle.std.specs.Prelude.{◌≡◌, ℕ, ◌+◌, ◌<◌, ◌≤◌, true, ◌∷◌, Some, None};
ghost use Rattle.um_words.specs.Steps.{WordMay};
ghost use Rattle.um_site.specs.{
  Calls.{SameSeat},
  Tells.{HasTurn, took, reached, recorded_by, returned},
  Cells.{AmongCells, NoSteps, NoneOfThem},
};
ghost use Rattle.atomic_table.specs.Table.{step};
ghost use mathlib.Core.Option.{none};

use crate::board::Board;
use crate::plays::{Fill, Reach, Record, Return, Step, Take};
use crate::seat::Seat;
use um_words::{Content, Local};

impl<T: Content, L: Local> Board<T, L> {
    /// Takes the turn of a cell that was filled. Returns the word that stood there; if it is odd, another seat has the turn.
    pub fn take_turn(&self, seat: &mut Seat<T>, cell: u16) -> u64
        requires here { seat.old.token.table_id ≡ self.now.table.shared.table_id }
        requires site { cell < self.now.table.shared.table_id.words }
        requires full { AmongCells seat.old.token.me.0.filled cell }
        requires idle { seat.old.token.me.0.turn ≡ None }
        ensures same { SameSeat seat.old seat.new }
        ensures told { took T.opens T.follows L.goes
            (step 0 cell 1 0 none) seat.old.token.me result seat.new.token.me }
    {
        self.table
            .shared
            .fetch_or::<Take<L>>(&mut seat.token, cell as usize, 1)
    }

    /// Takes the turn of a cell that has no step yet, for the first seat while no other one is out. Returns the word that stood there,
    /// which is even.
    pub fn reach_turn(&self, seat: &mut Seat<T>, cell: u16) -> u64
        requires here { seat.old.token.table_id ≡ self.now.table.shared.table_id }
        requires cell { (168 ≤ cell) × (cell < self.now.table.shared.table_id.words)
            × (cell < 168 + self.now.table.shared.table_id.slots) }
        requires alone { (seat.old.first ≡ true) × (seat.old.split ≡ seat.old.joined) }
        requires idle { seat.old.token.me.0.turn ≡ None }
        requires unstepped { NoSteps cell seat.old.token.me.0.made
            × NoneOfThem cell seat.old.token.me.0.joined }
        ensures same { SameSeat seat.old seat.new }
        ensures told { reached (step 0 cell 1 0 none) seat.old.token.me result seat.new.token.me }
    {
        self.table
            .shared
            .fetch_or::<Reach>(&mut seat.token, cell as usize, 1)
    }

    /// Records a step of the cell whose turn the seat has: writes this word, and gives the turn back with what the slot has. The step
    /// itself, `D::made`, is ghost data.
    #[inline(always)]
    pub fn record<D: Step>(&self, seat: &mut Seat<T>, cell: u16, word: u64)
        requires here { seat.old.token.table_id ≡ self.now.table.shared.table_id }
        requires site { cell < self.now.table.shared.table_id.words }
        requires step { D.made ≡ record { site = cell; act = D.made.act; word = word; moved = D.made.moved } }
        requires held { (before : ℕ) × (old : T) × (new : T)
            × HasTurn T.opens T.follows seat.old.token.me cell before (Some new) old
            × WordMay cell before D.made.act word × T.follows old D.made.act D.made.moved new }
        requires goes { L.goes seat.old.token.me.0.image seat.old.token.me.0.name seat.old.token.me.0.made D.made }
        ensures same { SameSeat seat.old seat.new }
        ensures told { recorded_by T.opens T.follows L.goes D.made
            (step 0 cell word 0 none) seat.old.token.me word seat.new.token.me }
    {
        self.table
            .shared
            .store::<Record<L, D>>(&mut seat.token, cell as usize, word);
    }

    /// Gives a turn back without a step, with the contents that the cell's steps left.
    pub fn give_back(&self, seat: &mut Seat<T>, cell: u16, word: u64)
        requires here { seat.old.token.table_id ≡ self.now.table.shared.table_id }
        requires site { cell < self.now.table.shared.table_id.words }
        requires held { (x : T) × HasTurn T.opens T.follows seat.old.token.me cell word (Some x) x }
        ensures same { SameSeat seat.old seat.new }
        ensures told { returned seat.old.token.me.0.filled
            (step 0 cell word 0 none) seat.old.token.me word seat.new.token.me }
    {
        self.table
            .shared
            .store::<Return>(&mut seat.token, cell as usize, word);
    }

    /// The same for a cell that is filled from now on.
    pub fn give_filled(&self, seat: &mut Seat<T>, cell: u16, word: u64)
        requires here { seat.old.token.table_id ≡ self.now.table.shared.table_id }
        requires site { cell < self.now.table.shared.table_id.words }
        requires held { (x : T) × HasTurn T.opens T.follows seat.old.token.me cell word (Some x) x }
        ensures same { SameSeat seat.old seat.new }
        ensures told { returned (cell ∷ seat.old.token.me.0.filled)
            (step 0 cell word 0 none) seat.old.token.me word seat.new.token.me }
    {
        self.table
            .shared
            .store::<Fill>(&mut seat.token, cell as usize, word);
    }
}
