//! The steps before the event of a domain's call.

ghost use Rattle.std.specs.Prelude.{◌≡◌};
ghost use Rattle.um_processor.specs.{Processors.{in_phase}, Turns.{CanTurn, HasRun}};

use crate::phase::{Phase, Turn};
use crate::running::Running;
use crate::running::next::domain_named;
use crate::turns::made;
use um_base::{DOMAINS, Errno, Reply};
use um_tables::{Here, Sites};
use um_words::DomainAct;

impl Running {
    /// Changes the domain's partitions as the call asks.
    pub fn edit<S: Sites>(&mut self, here: &Here, sites: &mut S) -> Turn
        requires goes { CanTurn S.Sites here.now sites.old (in_phase Phase.Edit self.old) }
        ensures turn { HasRun S.Sites result here.now sites.old sites.new
            (in_phase Phase.Edit self.old) self.old self.new }
    {
        let call = self.step();
        let domain = domain_named(&call);
        if domain as usize >= DOMAINS {
            return Turn::Stuck;
        }
        let reply = made!(sites.edit(here, domain, &call));
        self.reply = reply;
        self.phase = Phase::Show;
        Turn::Made
    }

    /// Claims the domain to which a thread moves. A domain that isn't initialised takes no thread.
    pub fn claim_to_move<S: Sites>(&mut self, here: &Here, sites: &mut S) -> Turn
        requires goes { CanTurn S.Sites here.now sites.old (in_phase Phase.MoveClaim self.old) }
        ensures turn { HasRun S.Sites result here.now sites.old sites.new
            (in_phase Phase.MoveClaim self.old) self.old self.new }
    {
        let domain = domain_named(&self.step());
        if domain as usize >= DOMAINS {
            return Turn::Stuck;
        }
        let word = made!(sites.domain(here, domain, &DomainAct::ReadClaim));
        if word.init {
            self.reply = Reply::Num(0);
            self.phase = Phase::MoveDone;
        } else {
            self.reply = Reply::Fail(Errno::EINVAL);
            self.phase = Phase::Show;
        }
        Turn::Made
    }
}
