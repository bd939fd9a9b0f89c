//! The steps before and after an access to memory.

ghost use Rattle.std.specs.Prelude.{◌≡◌};
ghost use Rattle.um_fine.specs.Processor.{is_of, key_of, same_key};
ghost use Rattle.um_machine.specs.State.{is_user};
ghost use Rattle.um_processor.specs.{Processors.{in_phase, processor_of}, Requests.{Holds}, Turns.{CanTurn, HasRun}};
ghost use Rattle.um_tables.specs.Parked.{some_if};

use crate::phase::{Phase, Turn};
use crate::running::Running;
use crate::turns::made;
use um_base::{DOMAINS, Mode, ROWS, Row};
use um_fine::TableKey;
use um_tables::{Here, Sites};
use um_words::{DomainAct, ThreadAct};

fn same_key(a: &TableKey, b: &TableKey) -> bool
    ensures { result ≡ same_key a.now b.now }
{
    a.thread == b.thread
        && a.stack == b.stack
        && a.user == b.user
        && a.domain == b.domain
        && a.version == b.version
}

fn is_user(mode: Mode) -> bool
    ensures { result ≡ is_user mode }
{
    match mode {
        Mode::User => true,
        Mode::Supervisor => false,
    }
}

impl Running {
    /// The thread, stack, mode, domain and version for which a table has to be loaded.
    fn key(&self) -> TableKey
        ensures { result ≡ key_of (in_phase Phase.ReadClaim self.now) }
    {
        TableKey {
            thread: self.context.thread(),
            stack: self.context.stack().0,
            user: is_user(self.context.mode()),
            domain: self.domain,
            version: self.version,
        }
    }

    /// Whether the table was loaded for this key.
    fn is_of(&self, key: &TableKey) -> bool
        ensures { result ≡ is_of key.now (some_if self.now.loaded self.now.table) }
    {
        self.loaded && same_key(&self.table.key, key)
    }

    /// Looks at the size of a queue's messages.
    pub fn look_at_size<S: Sites>(&mut self, here: &Here, sites: &mut S) -> Turn
        requires goes { CanTurn S.Sites here.now sites.old (in_phase Phase.SizeLook self.old) }
        ensures turn { HasRun S.Sites result here.now sites.old sites.new
            (in_phase Phase.SizeLook self.old) self.old self.new }
    {
        if self.queue as usize >= ROWS {
            return Turn::Stuck;
        }
        let size = made!(sites.message_size(here, Row(self.queue)));
        self.size = size;
        self.phase = Phase::Hold;
        Turn::Made
    }

    /// Holds the thread, and learns its domain.
    pub fn hold<S: Sites>(&mut self, here: &Here, next: Phase, sites: &mut S) -> Turn
        requires holds { Holds here.now.cpu here.now.image.now self.old next }
        requires goes { CanTurn S.Sites here.now sites.old (processor_of self.old) }
        ensures turn { HasRun S.Sites result here.now sites.old sites.new
            (processor_of self.old) self.old self.new }
    {
        let thread = self.thread();
        let word = made!(sites.thread(here, thread, &ThreadAct::Hold));
        self.domain = word.domain;
        self.phase = next;
        Turn::Made
    }

    /// Claims the domain. A table of the domain's version isn't loaded again.
    pub fn claim_to_read<S: Sites>(&mut self, here: &Here, sites: &mut S) -> Turn
        requires goes { CanTurn S.Sites here.now sites.old (in_phase Phase.ReadClaim self.old) }
        ensures turn { HasRun S.Sites result here.now sites.old sites.new
            (in_phase Phase.ReadClaim self.old) self.old self.new }
    {
        if self.domain as usize >= DOMAINS {
            return Turn::Stuck;
        }
        let word = made!(sites.domain(here, self.domain, &DomainAct::ReadClaim));
        self.version = word.version;
        let key = self.key();
        self.phase = if self.is_of(&key) {
            Phase::Access
        } else {
            Phase::RegionLoad
        };
        Turn::Made
    }

    /// Loads the region table.
    pub fn load_regions<S: Sites>(&mut self, here: &Here, sites: &mut S) -> Turn
        requires goes { CanTurn S.Sites here.now sites.old (in_phase Phase.RegionLoad self.old) }
        ensures turn { HasRun S.Sites result here.now sites.old sites.new
            (in_phase Phase.RegionLoad self.old) self.old self.new }
    {
        if self.domain as usize >= DOMAINS {
            return Turn::Stuck;
        }
        made!(sites.load_parts(here, self.domain, &mut self.table.parts));
        self.table.key = self.key();
        self.loaded = true;
        self.phase = Phase::Access;
        Turn::Made
    }
}
