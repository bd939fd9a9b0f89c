//! The events at the heap.

ghost use Rattle.std.specs.Prelude.{◌≡◌, if◌then◌else◌};
ghost use Rattle.um_base.specs.declared.names.Errno.TheVariants as Errno;
ghost use Rattle.um_base.specs.declared.names.Reply.TheVariants as Reply;
ghost use Rattle.um_machine.specs.Goes.{Change, Next, Way, reserve_change, reserve_way};
ghost use Rattle.um_machine.specs.declared.pending.Pending.TheVariants as Pending;
ghost use Rattle.um_processor.specs.{Events.{gone_by, shows}, Processors.{processor_of}, Turns.{CanTurn, HasRun}};

use crate::phase::Turn;
use crate::running::Running;
use crate::turns::made;
use um_base::{Addr, Image, Kind};
use um_steps::costs::cost_of;
use um_tables::{HeapAct, Here, Sites};

impl Running {
    /// Goes on with the new object at this address, if there is one.
    fn reserves(&mut self, image: &Image, addr: Option<Addr>)
        ensures { processor_of self.new ≡ gone_by image.now
            (Next.on (reserve_change addr) (reserve_way addr)) self.old }
    {
        let thread = self.context.thread();
        let taken = self.taken();
        self.context.reserves(image, addr, taken);
        self.leaves(image, thread);
    }

    /// Goes on with a buffer, or answers that there is none.
    fn buffers(&mut self, image: &Image, fits: bool)
        ensures { processor_of self.new ≡ gone_by image.now
            (Next.on Change.nothing
            (if fits then Way.rest else Way.replies (Reply.Fail Errno.ENOMEM))) self.old }
    {
        let thread = self.context.thread();
        let taken = self.taken();
        self.context.buffers(image, fits, taken);
        self.leaves(image, thread);
    }

    /// Asks for an address for a new object of this kind.
    pub fn reserve<S: Sites>(&mut self, here: &Here, kind: Kind, sites: &mut S) -> Turn
        requires goes { CanTurn S.Sites here.now sites.old (shows (Pending.Reserve kind) self.old) }
        ensures turn { HasRun S.Sites result here.now sites.old sites.new
            (shows (Pending.Reserve kind) self.old) self.old self.new }
    {
        let charge = cost_of(self.context.pool(), 64);
        let thread = self.thread();
        let act = HeapAct::Reserve { thread, kind };
        let said = made!(sites.heap(here, &act, charge));
        self.reserves(here.image, said.addr);
        Turn::Made
    }

    /// Asks for a buffer.
    pub fn buffer<S: Sites>(&mut self, here: &Here, size: u32, sites: &mut S) -> Turn
        requires goes { CanTurn S.Sites here.now sites.old (shows (Pending.Buffer size) self.old) }
        ensures turn { HasRun S.Sites result here.now sites.old sites.new
            (shows (Pending.Buffer size) self.old) self.old self.new }
    {
        let charge = cost_of(self.context.pool(), size);
        let thread = self.thread();
        let act = HeapAct::Buffer { thread, size };
        let said = made!(sites.heap(here, &act, charge));
        self.buffers(here.image, said.fits);
        Turn::Made
    }
}
