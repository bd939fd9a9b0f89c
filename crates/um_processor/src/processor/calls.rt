//! The steps after a call: its claims end, and the woken threads are told.

ghost use Rattle.std.specs.Prelude.{◌≡◌, ◌<◌, [], false, length};
ghost use Rattle.um_processor.specs.{Phases.{is_idle}, Standing.{whole}, Turns.{CanTurn, HasStepped}};

use crate::phase::Turn;
use crate::processor::Processor;
use crate::turns::made;
use um_base::{ROWS, Row, THREADS};
use um_tables::{Here, Sites};
use um_words::RowAct;

impl Processor {
    /// Ends the first claim. If that brings the row to cleaning, the object joins those to clean.
    pub fn end_call<S: Sites>(&mut self, here: &Here, sites: &mut S) -> Turn
        requires runs { is_idle self.old.running.phase ≡ false }
        requires cleans { self.old.cleans ≡ [] }
        requires ends { 0 < length self.old.ends.items }
        requires goes { CanTurn S.Sites here.now sites.old (whole self.old) }
        ensures turn { HasStepped S.Sites result here.now sites.old sites.new
            (whole self.old) self.old self.new }
    {
        let row = self.ends.as_slice()[0];
        if row as usize >= ROWS {
            return Turn::Stuck;
        }
        let said = made!(sites.row(here, Row(row), &RowAct::EndCall));
        self.ends.remove(0);
        self.cleans.take_in_if(here.image, row, said.cleans);
        Turn::Made
    }

    /// Tells the first woken thread that wasn't told yet what woke it.
    pub fn wake<S: Sites>(&mut self, here: &Here, sites: &mut S) -> Turn
        requires runs { is_idle self.old.running.phase ≡ false }
        requires cleans { self.old.cleans ≡ [] }
        requires ends { self.old.ends.items ≡ [] }
        requires woken { self.old.told < length self.old.outcome.woken }
        requires goes { CanTurn S.Sites here.now sites.old (whole self.old) }
        ensures turn { HasStepped S.Sites result here.now sites.old sites.new
            (whole self.old) self.old self.new }
    {
        let (who, told) = &self.outcome.woken.as_slice()[self.told];
        if who.0 as usize >= THREADS {
            return Turn::Stuck;
        }
        made!(sites.wake(here, *who, told));
        self.told += 1;
        Turn::Made
    }
}
