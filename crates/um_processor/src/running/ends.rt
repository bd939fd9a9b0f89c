//! The ends of threads and of objects.

ghost use Rattle.std.specs.Prelude.{◌≡◌, [], false};
ghost use Rattle.um_machine.specs.declared.pending.Pending.TheVariants as Pending;
ghost use Rattle.um_processor.specs.{Events.{resting_by, rests_by, shows, with_ends}, Phases.{is_idle}, Processors.{OnMade, UnlessMade, in_phase, processor_of}, Turns.{CanTurn, HasCleaned, HasEnded, TurnsAt}};
ghost use Rattle.um_fine.specs.Addresses.{row_named};

use crate::phase::{Phase, Turn};
use crate::running::Running;
use crate::running::next::row_named;
use crate::turns::made;
use arrayvec::ArrayVec;
use um_base::{Addr, Cause, Row, ThreadIx};
use um_tables::{Here, Sites};
use um_words::{RowAct, ThreadAct, ThreadWord};

impl Running {
    /// A thread whose word shows it doomed, or suspended and not aborted, stops running, or goes to sleep. Returns whether it does.
    pub fn rests(&mut self, word: &ThreadWord) -> bool
        ensures rests { result ≡ rests_by word.now }
        ensures left { self.new ≡ resting_by word.now self.old }
    {
        if word.doomed {
            self.phase = Phase::Done;
            return true;
        }
        if word.suspended && !word.aborted {
            self.phase = Phase::Sleep;
            return true;
        }
        false
    }

    /// Has the thread exit after its last line, or be killed, unless it is stopped. The claims of its call are to end then.
    pub fn exit<S: Sites>(&mut self, here: &Here, ends: &mut ArrayVec<u8, 2>, sites: &mut S) -> Turn
        requires none { ends.old.items ≡ [] }
        requires goes { CanTurn S.Sites here.now sites.old (in_phase Phase.Exit self.old) }
        ensures image { S.IsOf here.now.image.now sites.new }
        ensures ends { UnlessMade result (ends.new.items ≡ ends.old.items) }
        ensures same { UnlessMade result (processor_of self.new ≡ processor_of self.old) }
        ensures runs { OnMade result (is_idle self.new.phase ≡ false) }
        ensures turn { TurnsAt S.Sites result here.now.cpu here.now.image.now sites.old sites.new
            (in_phase Phase.Exit self.old) (with_ends ends.new.items (processor_of self.new)) }
    {
        let thread = self.thread();
        let word = made!(sites.thread(here, thread, &ThreadAct::Exit { thread }));
        if self.rests(&word) {
            return Turn::Made;
        }
        self.actor = Some(thread.0);
        self.context.gives_claims(ends);
        self.context.exits(here.image);
        self.expands(here.image);
        Turn::Made
    }

    /// Has the thread fail. The claims of its call are to end then.
    pub fn fail<S: Sites>(
        &mut self,
        here: &Here,
        ends: &mut ArrayVec<u8, 2>,
        reason: u8,
        cause: Cause,
        sites: &mut S,
    ) -> Turn
        requires none { ends.old.items ≡ [] }
        requires goes { CanTurn S.Sites here.now sites.old (shows (Pending.Fatal reason cause) self.old) }
        ensures ends { HasEnded S.Sites result here.now sites.old sites.new
            (shows (Pending.Fatal reason cause) self.old) self.old self.new ends.old.items ends.new.items }
    {
        let thread = self.thread();
        let act = ThreadAct::Fatal {
            thread,
            reason,
            cause,
        };
        made!(sites.thread(here, thread, &act));
        self.context.gives_claims(ends);
        self.context.fails(here.image, reason);
        self.leaves(here.image, thread.0);
        Turn::Made
    }

    /// Takes a thread's permission for the object at an address away, and writes to `cleans` whether the row came to cleaning.
    pub fn take_away<S: Sites>(
        &mut self,
        here: &Here,
        who: ThreadIx,
        addr: Addr,
        cleans: &mut bool,
        sites: &mut S,
    ) -> Turn
        requires goes { CanTurn S.Sites here.now sites.old (shows (Pending.DropPair who addr) self.old) }
        ensures cleans { HasCleaned S.Sites result here.now sites.old sites.new
            (shows (Pending.DropPair who addr) self.old) self.old self.new
            (row_named here.now.image.now addr) cleans.old cleans.new }
    {
        let row = Row(row_named(here.image, addr));
        let thread = self.thread();
        let act = RowAct::DropPair { thread, who, addr };
        let said = made!(sites.row(here, row, &act));
        *cleans = said.cleans;
        self.goes_on(here.image);
        Turn::Made
    }
}
