//! Room for the cell of an object.

ghost use Rattle.std.specs.Prelude.{◌≡◌, ◌<◌, [], IfOk, IsTrue, MatchOption, false, slice_set, true};
ghost use Rattle.um_base.specs.declared.limits.TheConstants.{THREADS};
ghost use Rattle.um_fine.specs.Seeking.{finds};
ghost use Rattle.um_machine.specs.{
  Limits.{is_sound_ask},
  Services.{acted, in_order, runs_out},
  Table.{buffer_cost, message_size},
  Time.{has_run_out},
};
ghost use Rattle.um_service.specs.Left.{left};
ghost use Rattle.um_tables.specs.{Looks.{left_by, look_sent}, ObjectCells.{cleared, named_as, wiped}};

use std::alloc::Global;
use std::marker::Model;
use um_base::{OutOfMemory, Piece, Waiter};
use um_machine::Cost;
use um_service::{Outcome, Woken};
use um_tables::{Look, ObjectCell};

/// The cell of an object. A cell is large, so nothing is written to it before it keeps something or takes a step.
#[derive(Drop)]
pub struct ObjectRoom {
    /// The cell, or none of these.
    cells: Vec<ObjectCell>,
}

impl Model for ObjectRoom {
    ghost use Rattle.std.specs.Prelude.{◌≤◌, length, slice_index_or, vec_capacity};
    ghost use Rattle.um_tables.specs.{declared.object_cell.ObjectCell.{ObjectCell}, ObjectCells.{cleared}};

    ghost Value = { ObjectCell };

    ghost view = { λ r. slice_index_or r.cells.items 0 (cleared 0) };

    ghost invariant = { λ r. (length r.cells.items ≤ 1) × (1 ≤ vec_capacity r.cells) };
}

impl ObjectRoom {
    /// Room for a cell that keeps nothing.
    pub fn new(alloc: Global) -> Result<ObjectRoom, OutOfMemory>
        ensures { IfOk result (λ room. room ≡ cleared 0) }
    {
        let cells = Vec::with_capacity(alloc, 1)?;
        Ok(ObjectRoom { cells })
    }

    /// Room with this cell.
    pub fn with(alloc: Global, cell: ObjectCell) -> Result<ObjectRoom, OutOfMemory>
        ensures { IfOk result (λ room. room ≡ cell) }
    {
        let mut cells = Vec::with_capacity(alloc, 1)?;
        cells.push_reserved(cell);
        Ok(ObjectRoom { cells })
    }

    /// The cell, if it was ever written. If not, it keeps nothing.
    pub fn cell(&self) -> Option<&ObjectCell>
        ensures { MatchOption result (self.now ≡ cleared 0) (λ cell. self.now ≡ cell.now) }
    {
        self.cells.get(0)
    }

    /// Does the work of a call whose thread has a note of this number, and writes its outcome.
    pub fn work(&mut self, who: &Waiter, noted: u32, outcome: &mut Outcome)
        requires thread { who.now.thread.0 < THREADS }
        requires sound { IsTrue (is_sound_ask who.now.ask) }
        ensures work { acted self.old.contents self.old.waiters who.now
            ≡ left self.new.contents self.new.waiters outcome.new }
        ensures buffer { self.new.buffer ≡ buffer_cost who.now.ask outcome.new.answer self.old.buffer }
        ensures noted { self.new.noted ≡ slice_set self.old.noted who.now.thread.0 noted }
        ensures steps { self.new.steps ≡ self.old.steps }
    {
        if self.cells.is_empty() {
            self.cells.push_reserved(ObjectCell::empty());
        }
        self.cells[0].work(who, noted, outcome);
    }

    /// Gives a thread object this name.
    pub fn name(&mut self, bytes: &Piece)
        ensures { self.new ≡ named_as self.old bytes.now }
    {
        if self.cells.is_empty() {
            self.cells.push_reserved(ObjectCell::empty());
        }
        self.cells[0].name(bytes);
    }

    /// The size of the messages, or 0 if this is no queue.
    pub fn message_size(&self) -> u32
        ensures { result ≡ message_size self.now.contents }
    {
        match self.cells.get(0) {
            Some(cell) => cell.message_size(),
            None => 0,
        }
    }

    /// Clears the contents, and returns what the buffer cost.
    pub fn clear(&mut self) -> Option<Cost>
        ensures cost { result ≡ self.old.buffer }
        ensures left { self.new ≡ wiped self.old }
    {
        match self.cells.get_mut(0) {
            Some(cell) => cell.clear(),
            None => None,
        }
    }

    /// Takes a thread out that is looked for, if it waits here. Returns whether it did.
    pub fn look(&mut self, look: &Look) -> bool
        ensures found { result ≡ finds self.old.waiters self.old.noted (look_sent look.now) }
        ensures left { self.new ≡ record self.old { waiters = left_by result look.now self.old.waiters } }
    {
        match self.cells.get_mut(0) {
            Some(cell) => cell.look(look),
            None => false,
        }
    }

    /// Lets a timer run out whose deadline has come by now, and writes who is woken. Returns whether it is one.
    pub fn expire(&mut self, now: u64, woken: &mut Woken) -> bool
        ensures found { result ≡ has_run_out now self.old.contents }
        ensures left { let out = runs_out self.old.waiters (in_order self.old.waiters) in
            result ≡ true → (self.new ≡ record self.old { contents = out.0; waiters = out.1 }) × (woken.new ≡ out.2) }
        ensures kept { result ≡ false → (self.new ≡ self.old) × (woken.new ≡ []) }
    {
        match self.cells.get_mut(0) {
            Some(cell) => cell.expire(now, woken),
            None => {
                woken.clear();
                false
            }
        }
    }
}
