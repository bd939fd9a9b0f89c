//! The steps of a thread, by the phase in which its processor is.

ghost use Rattle.std.specs.Prelude.{◌≡◌, IsTrue};
ghost use Rattle.um_steps.specs.Given.{IsGiven};
ghost use Rattle.um_processor.specs.{Phases.{domain_named, first_of, is_plain_phase}, Processors.{processor_of}, Turns.{CanTurn, HasRun}};
ghost use Rattle.um_tables.specs.Contexts.{steps_behind};

use crate::phase::{Phase, Turn};
use crate::request::{Onward, Request};
use crate::running::Running;
use crate::running::next::domain_named;
use um_tables::{Here, Sites};
use um_words::{DomainAct, ThreadAct};

impl Running {
    /// The domain that its call names.
    fn named(&self) -> u8
        ensures { result ≡ domain_named
            (first_of (steps_behind self.now.visited self.now.context.value.pending)) }
    {
        domain_named(&self.step())
    }

    /// Makes a step after which nothing has to be done before the next one.
    pub fn go<S: Sites>(&mut self, here: &Here, sites: &mut S) -> Turn
        requires given { IsGiven here.now.image.now }
        requires plain { IsTrue (is_plain_phase self.old.phase) }
        requires goes { CanTurn S.Sites here.now sites.old (processor_of self.old) }
        ensures turn { HasRun S.Sites result here.now sites.old sites.new
            (processor_of self.old) self.old self.new }
    {
        match self.phase {
            Phase::Pass => self.pass(here, sites),
            Phase::SizeLook => self.look_at_size(here, sites),
            Phase::Hold => self.hold(here, Phase::ReadClaim, sites),
            Phase::ReadClaim => self.claim_to_read(here, sites),
            Phase::RegionLoad => self.load_regions(here, sites),
            Phase::Edit => self.edit(here, sites),
            Phase::MoveClaim => self.claim_to_move(here, sites),
            Phase::StartHold => self.hold(here, Phase::Unshut, sites),
            Phase::Unshut => self.unshut(here, sites),
            Phase::Add => self.add(here, sites),
            Phase::Park | Phase::Open => self.park(here, sites),
            Phase::Note => self.note(here, sites),
            Phase::Owe => self.owe(here, sites),
            Phase::Settle => self.settle(here, sites),
            Phase::Reread => self.reread(here, sites),
            Phase::Look => self.look(here, sites),
            Phase::TellCut => self.tell_cut(here, sites),
            Phase::Rouse => self.rouse(here, sites),
            Phase::AddRoused => self.add_roused(here, sites),
            Phase::Sleep => self.sleep(here, sites),
            Phase::RereadAsleep => self.reread_asleep(here, sites),
            Phase::Paid => self.pay(here, sites),
            Phase::ActDone => {
                let request = Request::Domain(self.domain, DomainAct::ReadDone);
                self.ask(here, &request, Onward::To(Phase::ActLetGo), sites)
            }
            Phase::ActLetGo => {
                let request = Request::Thread(self.thread(), ThreadAct::LetGo);
                self.ask(here, &request, Onward::EndsAct, sites)
            }
            Phase::Done => self.ask(here, &Request::Done, Onward::To(Phase::Idle), sites),
            Phase::ReadDone => {
                let request = Request::Domain(self.domain, DomainAct::ReadDone);
                self.ask(here, &request, Onward::To(Phase::LetGo), sites)
            }
            Phase::LetGo => {
                let request = Request::Thread(self.thread(), ThreadAct::LetGo);
                self.ask(here, &request, Onward::Expands, sites)
            }
            Phase::WriteClaim => {
                let request = Request::Domain(self.named(), DomainAct::WriteClaim);
                self.ask(here, &request, Onward::To(Phase::Edit), sites)
            }
            Phase::MoveDone => {
                let request = Request::Domain(self.named(), DomainAct::ReadDone);
                self.ask(here, &request, Onward::To(Phase::Show), sites)
            }
            Phase::StartLetGo => {
                let request = Request::Thread(self.thread(), ThreadAct::LetGo);
                self.ask(here, &request, Onward::To(Phase::Add), sites)
            }
            _ => unreachable!(),
        }
    }
}
