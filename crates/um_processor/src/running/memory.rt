//! The events of accesses to memory.

ghost use Rattle.std.specs.Prelude.{◌≡◌, if◌then◌else◌};
ghost use Rattle.um_machine.specs.declared.pending.Pending.TheVariants as Pending;
ghost use Rattle.um_tables.specs.declared.memory_act.MemoryAct.TheVariants as MemoryAct;
ghost use Rattle.um_processor.specs.{Accesses.{loaded}, Events.{gone_by, shows}, Processors.{processor_of}, Turns.{CanTurn, HasRun}};

use crate::phase::Turn;
use crate::running::Running;
use crate::turns::made;
use um_base::{Access, Addr, Image, ThreadIx};
use um_tables::{Here, MemoryAct, Sites, empties};

/// An act where it is allowed, or else the fault of its access.
fn or_fault(
    allowed: bool,
    act: MemoryAct,
    thread: ThreadIx,
    access: Access,
    addr: Addr,
    size: u32,
) -> MemoryAct
    ensures { result ≡ (if allowed then act else MemoryAct.Fault thread access addr size) }
{
    if allowed {
        act
    } else {
        MemoryAct::Fault {
            thread,
            access,
            addr,
            size,
        }
    }
}

impl Running {
    /// Goes on after a load of this number, or after its fault.
    fn loads_or_faults(&mut self, image: &Image, allowed: bool, to: u8, value: u32)
        ensures { processor_of self.new ≡ gone_by image.now (loaded allowed to value) self.old }
    {
        let thread = self.context.thread();
        if allowed {
            let taken = self.taken();
            self.context.loads(image, to, value, taken);
        } else {
            self.context.faults(image);
        }
        self.leaves(image, thread);
    }

    /// Loads a number into a register, or makes the fault in its place.
    pub fn load<S: Sites>(
        &mut self,
        here: &Here,
        to: u8,
        addr: Addr,
        size: u32,
        sites: &mut S,
    ) -> Turn
        requires goes { CanTurn S.Sites here.now sites.old (shows (Pending.Load to addr size) self.old) }
        ensures turn { HasRun S.Sites result here.now sites.old sites.new
            (shows (Pending.Load to addr size) self.old) self.old self.new }
    {
        if size > 4 {
            return Turn::Stuck;
        }
        let thread = self.thread();
        let allowed = self.allows(here.image, Access::Read, addr.0, size);
        let load = MemoryAct::Load { thread, addr, size };
        let act = or_fault(allowed, load, thread, Access::Read, addr, size);
        empties(&mut self.spare);
        let said = made!(sites.memory(here, &act, &mut self.spare));
        self.loads_or_faults(here.image, allowed, to, said.value);
        Turn::Made
    }
}
