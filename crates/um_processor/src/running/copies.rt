//! The events of probes and of copies.

ghost use Rattle.std.specs.Prelude.{◌≡◌};
ghost use Rattle.um_fine.specs.Asks.{amount};
ghost use Rattle.um_machine.specs.declared.pending.Pending.TheVariants as Pending;
ghost use Rattle.um_processor.specs.declared.phase.Phase.TheVariants as Phase;
ghost use Rattle.um_processor.specs.{Events.{shows}, Processors.{in_phase}, Turns.{CanTurn, HasRun}};

use crate::phase::{Phase, Turn};
use crate::running::Running;
use crate::turns::made;
use um_base::{Access, Addr, Image};
use um_machine::Amount;
use um_tables::{Here, MemoryAct, Sites, empties};

impl Running {
    /// The number of bytes of a copy.
    pub fn amount(&self, image: &Image, of: &Amount) -> u32
        ensures { result ≡ amount image.now (in_phase Phase.Park self.now) of.now }
    {
        match of {
            Amount::Bytes(n) => *n,
            Amount::MessageOf(_) => self.size,
        }
    }

    /// Copies bytes from memory, if that is allowed.
    pub fn copy_in<S: Sites>(
        &mut self,
        here: &Here,
        addr: Addr,
        amount: &Amount,
        sites: &mut S,
    ) -> Turn
        requires goes { CanTurn S.Sites here.now sites.old (shows (Pending.CopyIn addr amount.now) self.old) }
        ensures turn { HasRun S.Sites result here.now sites.old sites.new
            (shows (Pending.CopyIn addr amount.now) self.old) self.old self.new }
    {
        let thread = self.thread();
        let size = self.amount(here.image, amount);
        let fits = self.allows(here.image, Access::Read, addr.0, size);
        let act = MemoryAct::CopyIn {
            thread,
            addr,
            size,
            fits,
        };
        empties(&mut self.spare);
        made!(sites.memory(here, &act, &mut self.spare));
        let taken = self.taken();
        self.context.copies_in(here.image, fits, &self.spare, taken);
        self.leaves(here.image, thread.0);
        Turn::Made
    }

    /// Copies the bytes of the buffer to memory, if that is allowed.
    pub fn copy_out<S: Sites>(&mut self, here: &Here, addr: Addr, sites: &mut S) -> Turn
        requires goes { CanTurn S.Sites here.now sites.old (shows (Pending.CopyOut addr) self.old) }
        ensures turn { HasRun S.Sites result here.now sites.old sites.new
            (shows (Pending.CopyOut addr) self.old) self.old self.new }
    {
        let thread = self.thread();
        let mut bytes = *self.context.buffer();
        let size = bytes.len() as u32;
        let fits = self.allows(here.image, Access::Write, addr.0, size);
        let act = MemoryAct::CopyOut {
            thread,
            addr,
            size,
            fits,
        };
        made!(sites.memory(here, &act, &mut bytes));
        let taken = self.taken();
        self.context.copies_out(here.image, fits, taken);
        self.leaves(here.image, thread.0);
        Turn::Made
    }

    /// Copies a text from memory, as far as it may be read.
    pub fn copy_text<S: Sites>(&mut self, here: &Here, addr: Addr, sites: &mut S) -> Turn
        requires goes { CanTurn S.Sites here.now sites.old (shows (Pending.CopyStr addr) self.old) }
        ensures turn { HasRun S.Sites result here.now sites.old sites.new
            (shows (Pending.CopyStr addr) self.old) self.old self.new }
    {
        let thread = self.thread();
        let readable = self.readable(here.image, addr.0, 32);
        let act = MemoryAct::CopyStr {
            thread,
            addr,
            readable,
        };
        empties(&mut self.spare);
        let said = made!(sites.memory(here, &act, &mut self.spare));
        let taken = self.taken();
        self.context
            .copies_text(here.image, said.found, &self.spare, taken);
        self.leaves(here.image, thread.0);
        Turn::Made
    }
}
