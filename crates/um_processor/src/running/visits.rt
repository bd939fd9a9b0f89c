//! The visits of rows before a thread's next step.

ghost use Rattle.std.specs.Prelude.{◌≡◌, ◌∷◌, drop};
ghost use Rattle.um_machine.specs.declared.pending.Pending.TheVariants as Pending;
ghost use Rattle.um_processor.specs.{Phases.{passed_to}, Processors.{in_phase, visiting}, Turns.{CanTurn, HasCleaned, HasRun}};

use crate::phase::{Phase, Turn};
use crate::running::Running;
use crate::running::next::{but, own_phase};
use crate::turns::made;
use um_base::{Addr, ROWS, Row, ThreadIx};
use um_machine::Pending;
use um_steps::rows::{addr_of, own_row};
use um_tables::{Here, Sites};
use um_words::RowAct;

impl Running {
    /// To whom permissions are passed on.
    fn passed_to(&self) -> ThreadIx
        ensures { result.0 ≡ passed_to self.now.context.value.pending }
    {
        match self.context.first() {
            Some(Pending::Inherit { who }) => who,
            _ => ThreadIx(0),
        }
    }

    /// Goes to the visit of this row, or to the thread's next step if there is no such row.
    pub fn visits(&mut self, row: u8, phase: Phase)
        ensures { self.new ≡ visiting row phase self.old }
    {
        self.row = row;
        self.visited = true;
        self.phase = if (row as usize) < ROWS {
            phase
        } else {
            own_phase(self.next)
        };
    }

    /// The rows from this one on are still to be visited, to drop permissions.
    fn drops_from(&mut self, row: u8)
        ensures context { self.new.context.value
            ≡ record self.old.context.value {
              pending = Pending.Drops row
                  ∷ drop 1 self.old.context.value.pending;
            } }
        ensures rest { record self.new { context = self.old.context } ≡ self.old }
    {
        self.context.drops_from(row);
    }

    /// Passes the permission on the object of a row on, if the other thread hasn't it.
    pub fn pass<S: Sites>(&mut self, here: &Here, sites: &mut S) -> Turn
        requires goes { CanTurn S.Sites here.now sites.old (in_phase Phase.Pass self.old) }
        ensures turn { HasRun S.Sites result here.now sites.old sites.new
            (in_phase Phase.Pass self.old) self.old self.new }
    {
        let x = self.row as usize;
        if x >= ROWS {
            return Turn::Stuck;
        }
        let thread = self.context.thread();
        let act = RowAct::Pass {
            thread: ThreadIx(thread),
            who: self.passed_to(),
            addr: Addr(addr_of(here.image, x)),
        };
        let said = made!(sites.row(here, Row(self.row), &act));
        self.acts_unless(said.visits, ThreadIx(thread));
        let own = own_row(here.image, thread as usize);
        self.visits(but(own, self.row + 1), Phase::Pass);
        Turn::Made
    }

    /// Drops the permission on the object of a row, if there is one, and writes to `cleans` whether the row came to cleaning.
    pub fn drop_permission<S: Sites>(
        &mut self,
        here: &Here,
        cleans: &mut bool,
        sites: &mut S,
    ) -> Turn
        requires goes { CanTurn S.Sites here.now sites.old (in_phase Phase.Drop self.old) }
        ensures cleans { HasCleaned S.Sites result here.now sites.old sites.new
            (in_phase Phase.Drop self.old) self.old self.new self.old.row cleans.old cleans.new }
    {
        let x = self.row as usize;
        if x >= ROWS {
            return Turn::Stuck;
        }
        let me = self.thread();
        let act = RowAct::Sweep {
            thread: me,
            who: me,
            addr: Addr(addr_of(here.image, x)),
        };
        let said = made!(sites.row(here, Row(self.row), &act));
        *cleans = said.cleans;
        let next = self.row + 1;
        if said.visits {
            self.visits(next, Phase::Drop);
            return Turn::Made;
        }
        self.acts(me);
        self.drops_from(next);
        self.visits(next, Phase::Drop);
        Turn::Made
    }
}
