//! The events by which objects are marked as initialised or not.

ghost use Rattle.std.specs.Prelude.{◌≡◌, []};
ghost use Rattle.um_machine.specs.Goes.{Change, Next, set_way};
ghost use Rattle.um_machine.specs.declared.pending.Pending.TheVariants as Pending;
ghost use Rattle.um_processor.specs.{Events.{gone_by, shows}, Processors.{processor_of}, Turns.{CanTurn, HasEnded, HasRun}};

use crate::phase::Turn;
use crate::running::Running;
use crate::running::next::row_named;
use crate::turns::made;
use arrayvec::ArrayVec;
use um_base::{Addr, Image, Row, SetSaid, ThreadIx};
use um_steps::rows::own_row;
use um_tables::{Here, Sites};
use um_words::RowAct;

impl Running {
    /// Goes on after an attempt to mark an object as initialised.
    fn marks(&mut self, image: &Image, undo: Option<Addr>, said: SetSaid)
        ensures { processor_of self.new ≡ gone_by image.now
            (Next.on Change.nothing (set_way self.old.context.value.mode undo said)) self.old }
    {
        let thread = self.context.thread();
        let taken = self.taken();
        self.context.marks(image, undo, said, taken);
        self.leaves(image, thread);
    }

    /// Marks the object at an address as initialised. `undo` is what is cleared first if that is refused.
    pub fn set_init<S: Sites>(
        &mut self,
        here: &Here,
        addr: Addr,
        strict: bool,
        undo: Option<Addr>,
        sites: &mut S,
    ) -> Turn
        requires goes { CanTurn S.Sites here.now sites.old
            (shows (Pending.SetInit addr strict undo) self.old) }
        ensures turn { HasRun S.Sites result here.now sites.old sites.new
            (shows (Pending.SetInit addr strict undo) self.old) self.old self.new }
    {
        let row = Row(row_named(here.image, addr));
        let thread = self.thread();
        let act = RowAct::SetInit {
            thread,
            addr,
            strict,
        };
        let said = made!(sites.row(here, row, &act));
        self.marks(here.image, undo, said.set);
        Turn::Made
    }

    /// Marks the object at an address as uninitialised. If it is the thread's own object, the claim of the thread's life is to end then.
    pub fn clear_init<S: Sites>(
        &mut self,
        here: &Here,
        addr: Addr,
        ends: &mut ArrayVec<u8, 2>,
        sites: &mut S,
    ) -> Turn
        requires none { ends.old.items ≡ [] }
        requires goes { CanTurn S.Sites here.now sites.old (shows (Pending.ClearInit addr) self.old) }
        ensures ends { HasEnded S.Sites result here.now sites.old sites.new
            (shows (Pending.ClearInit addr) self.old) self.old self.new ends.old.items ends.new.items }
    {
        let row = row_named(here.image, addr);
        let t = self.context.thread();
        let own = own_row(here.image, t as usize);
        let thread = ThreadIx(t);
        let act = RowAct::ClearInit { thread, addr };
        made!(sites.row(here, Row(row), &act));
        if row as usize == own {
            ends.push(own as u8);
        }
        self.goes_on(here.image);
        Turn::Made
    }
}
