//! The cells of all objects.

ghost use Rattle.std.specs.{
  Prelude.{◌≡◌, ◌<◌, ◌≤◌, IfOk, length, replicate, slice_index_or, slice_set, vec_capacity, MatchOption},
  Borrow.{sem},
};
ghost use Rattle.um_base.specs.declared.limits.TheConstants.{ROWS};
ghost use Rattle.um_tables.specs.{Lending.{LendsCell}, ObjectCells.{cleared}, Placed.{ArePlaces, item_at, placed}};

use crate::object_cell::ObjectCell;
use std::alloc::Global;
use std::marker::Model;
use std::mem;
use um_base::{OutOfMemory, ROWS};

/// The place of a row without a cell.
const NONE: u8 = 255;

/// The cells of all rows. It has those that were ever asked for, in the order in which that happened; the others keep nothing. Room for
/// all rows is reserved from the beginning.
#[derive(Drop)]
pub struct ObjectCells {
    /// By row: the number of its cell, or NONE.
    places: Vec<u8>,
    cells: Vec<ObjectCell>,
}

impl Model for ObjectCells {
    ghost use Rattle.std.specs.Prelude.{List, ◌≡◌, ◌≤◌, length, vec_capacity};
    ghost use Rattle.um_base.specs.declared.limits.TheConstants.{ROWS};
    ghost use Rattle.um_tables.specs.{
      declared.object_cell.ObjectCell.{ObjectCell},
      ObjectCells.{cleared},
      Placed.{ArePlaces, placed},
    };

    ghost Value = { List ObjectCell };

    ghost view = { λ t. placed (cleared 0) t.cells.items t.places.items };

    ghost invariant = { λ t. (length t.places.items ≡ ROWS) × (ROWS ≤ vec_capacity t.cells)
        × ArePlaces (length t.cells.items) t.places.items };
}

/// The number of a row's cell. If it has none, it gets an empty one. The room is reserved.
fn place(places: &mut Vec<u8>, cells: &mut Vec<ObjectCell>, x: usize) -> usize
    requires row { x < ROWS }
    requires rows { length places.old.items ≡ ROWS }
    requires room { ROWS ≤ vec_capacity cells.old }
    requires places { ArePlaces (length cells.old.items) places.old.items }
    ensures place { result ≡ item_at places.new.items x }
    ensures cell { result < length cells.new.items }
    ensures rows { length places.new.items ≡ ROWS }
    ensures room { ROWS ≤ vec_capacity cells.new }
    ensures places { ArePlaces (length cells.new.items) places.new.items }
    ensures same { placed (cleared 0) cells.new.items places.new.items
        ≡ placed (cleared 0) cells.old.items places.old.items }
{
    let place = places[x];
    if place != NONE {
        return place as usize;
    }
    let last = cells.len();
    places[x] = last as u8;
    cells.push_reserved(ObjectCell::empty());
    last
}

impl ObjectCells {
    /// Empty cells, which have taken no step.
    pub fn new(alloc: Global) -> Result<ObjectCells, OutOfMemory>
        ensures { IfOk result (λ cells. cells ≡ replicate ROWS (cleared 0)) }
    {
        let places = vec![in alloc; NONE; ROWS]?;
        let cells = Vec::with_capacity(alloc, ROWS)?;
        Ok(ObjectCells { places, cells })
    }

    /// The cell of a row, if it was ever asked for. If not, the cell keeps nothing.
    pub fn row(&self, x: usize) -> Option<&ObjectCell>
        requires { x < ROWS }
        ensures { MatchOption result (slice_index_or self.now x (cleared 0) ≡ cleared 0)
            (λ cell. slice_index_or self.now x (cleared 0) ≡ cell.now) }
    {
        self.cells.get(self.places[x] as usize)
    }

    /// The cell of a row, to change it. It takes no memory.
    pub fn row_mut(&mut self, x: usize) -> &mut ObjectCell
        requires { x < ROWS }
        ensures* lends { sem 𝓛 (LendsCell self.entry x result) }
        ensures value { result.now ≡ slice_index_or self.old x (cleared 0) }
    {
        let place = place(&mut self.places, &mut self.cells, x);
        &mut self.cells[place]
    }

    /// Takes the cell of a row, and leaves an empty one there.
    pub fn take(&mut self, x: usize) -> ObjectCell
        requires { x < ROWS }
        ensures cell { result ≡ slice_index_or self.old x (cleared 0) }
        ensures left { self.new ≡ slice_set self.old x (cleared 0) }
    {
        match self.cells.get_mut(self.places[x] as usize) {
            Some(cell) => mem::replace(cell, ObjectCell::empty()),
            None => ObjectCell::empty(),
        }
    }
}
