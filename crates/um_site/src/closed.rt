//! A board that was closed.

ghost use Rattle.std.specs.{Prelude.{◌≡◌, ◌<◌}, Mem.Slots.{slots_items, slots_len, IsFull}};
ghost use lib.ListN.{get_elem?};
ghost use mathlib.Core.Option.{some};

use crate::view::View;
use atomic_table::{Closed as Ended, Seat as Token};
use std::alloc::Global;

/// A board that nobody uses any more: its words, and as ghost data what its first seat knew.
pub struct Closed<T> {
    pub table: Ended<Option<T>, Global>,
    pub token: Token<Option<T>, View>,
    /// Only `Board::close` makes a closed board.
    pub(crate) sealed: (),
    pub ghost full: { IsFull table.words × IsFull table.slots },
}

impl<T> Closed<T> {
    /// The word of a site.
    pub fn word(&self, site: u16) -> u64
        requires { site < slots_len self.now.table.words }
        ensures { get_elem? (slots_items self.now.table.words) site ≡ some result }
    {
        self.table.word(site as usize)
    }

    /// What is in a slot.
    pub fn slot(&self, slot: u16) -> &Option<T>
        requires { slot < slots_len self.now.table.slots }
        ensures { get_elem? (slots_items self.now.table.slots) slot ≡ some result.now }
    {
        self.table.slots.get(slot as usize)
    }
}

impl<T: Drop> Closed<T> {
    /// Gives its memory back.
    pub fn free(self) {
        let Closed {
            mut table,
            token: _,
            sealed: _,
        } = self;
        let mut slot = 0;
        while slot < table.slot_count() {
            drop(table.take(slot));
            slot += 1;
        }
        table.free();
    }
}
