//! The cleaning of objects, before all else.

ghost use Rattle.um_fine.specs.Places.{Todo};
ghost use Rattle.um_processor.specs.{Standing.{CleansNext, whole}, Turns.{CanTurn, HasStepped}};

use crate::cleaning::MOST;
use crate::phase::Turn;
use crate::processor::Processor;
use crate::request::Request;
use crate::turns::{made, took};
use um_base::{Addr, Piece, ROWS, Row, ThreadIx};
use um_steps::rows::addr_of;
use um_tables::{HeapAct, Here, Sites};
use um_words::RowAct;

impl Processor {
    /// Drops the permission at a row of a thread whose object is gone, if there is one. If that brings the row to cleaning, its object
    /// joins those to clean.
    pub fn clean_pair<S: Sites>(&mut self, here: &Here, who: u8, row: u8, sites: &mut S) -> Turn
        requires next { CleansNext self.old (Todo.clean_pair who row) }
        requires goes { CanTurn S.Sites here.now sites.old (whole self.old) }
        ensures turn { HasStepped S.Sites result here.now sites.old sites.new
            (whole self.old) self.old self.new }
    {
        let x = row as usize;
        if x >= ROWS {
            return Turn::Stuck;
        }
        if self.cleans.len() >= MOST {
            return Turn::Stuck;
        }
        let thread = self.running.cleaner();
        let act = RowAct::Sweep {
            thread,
            who: ThreadIx(who),
            addr: Addr(addr_of(here.image, x)),
        };
        let said = made!(sites.row(here, Row(row), &act));
        self.cleans.advance();
        self.cleans.take_in_if(here.image, row, said.cleans);
        self.running.acts_unless(said.visits, thread);
        Turn::Made
    }

    /// Clears what the object of a row keeps.
    pub fn wipe<S: Sites>(&mut self, here: &Here, row: u8, sites: &mut S) -> Turn
        requires next { CleansNext self.old (Todo.wipe row) }
        requires goes { CanTurn S.Sites here.now sites.old (whole self.old) }
        ensures turn { HasStepped S.Sites result here.now sites.old sites.new
            (whole self.old) self.old self.new }
    {
        if row as usize >= ROWS {
            return Turn::Stuck;
        }
        let cost = made!(sites.clear(here, Row(row)));
        self.cleans.advance();
        self.running.set_charge(cost);
        Turn::Made
    }

    /// Vacates the object's row.
    pub fn vacate<S: Sites>(&mut self, here: &Here, row: u8, sites: &mut S) -> Turn
        requires next { CleansNext self.old (Todo.vacate row) }
        requires goes { CanTurn S.Sites here.now sites.old (whole self.old) }
        ensures turn { HasStepped S.Sites result here.now sites.old sites.new
            (whole self.old) self.old self.new }
    {
        let request = Request::Row(Row(row), RowAct::Vacate);
        let mut none = Piece::new();
        took!(request.make(here, &mut none, sites));
        self.cleans.advance();
        Turn::Made
    }

    /// Recycles the object. Its pool gets back what it and its buffer cost.
    pub fn recycle<S: Sites>(&mut self, here: &Here, row: u8, sites: &mut S) -> Turn
        requires next { CleansNext self.old (Todo.recycle row) }
        requires goes { CanTurn S.Sites here.now sites.old (whole self.old) }
        ensures turn { HasStepped S.Sites result here.now sites.old sites.new
            (whole self.old) self.old self.new }
    {
        let thread = self.running.cleaner();
        let act = HeapAct::Recycle {
            thread,
            addr: Addr(addr_of(here.image, row as usize)),
        };
        made!(sites.heap(here, &act, self.running.charge()));
        self.running.acts(thread);
        self.cleans.advance();
        Turn::Made
    }
}
