//! A step of a processor, whatever it is.

ghost use Rattle.std.specs.Prelude.{◌≡◌, [], false, true, IsTrue};
ghost use Rattle.um_steps.specs.Given.{IsGiven};
ghost use Rattle.um_fine.specs.{Answers.{is_due_act, is_tick}, Steps.{Site}};
ghost use Rattle.um_processor.specs.{Cleanings.{clean_todo}, Idles.{HasIdled, IdlesAt, is_turn}, Phases.{is_idle, is_plain_phase}, Processors.{UnlessMade, in_phase}, Standing.{CleansNext, IsClear, whole}, Turns.{CanTurn, HasStepped, MayTurn, TurnsAt}};
ghost use Rattle.um_processor.specs.declared.phase.Phase.TheVariants as Phase;

use crate::cleaning::CleanStep;
use crate::phase::{Phase, Turn};
use crate::processor::Processor;
use crate::turns::took;
use um_base::Image;
use um_tables::{Here, Sites};

impl Processor {
    /// Forgets what had to be done before the thread's next step.
    #[tactic(auto, using(std::proofs::lemmas::List::drop_all))]
    fn clears(&mut self)
        ensures clear { IsClear self.new }
        ensures running { self.new.running ≡ self.old.running }
    {
        self.cleans.clear();
        self.ends.clear();
        self.told = self.outcome.woken.len();
    }

    /// Takes the first ready thread.
    fn take<S: Sites>(&mut self, here: &Here, sites: &mut S) -> Turn
        requires idle { (whole self.old).todo ≡ [] }
        requires goes { CanTurn S.Sites here.now sites.old (whole self.old) }
        ensures turn { HasIdled S.Sites Site.scheduler is_turn result here.now sites.old sites.new
            (whole self.old) (whole self.old) (whole self.new) }
    {
        took!(self.running.take(here, sites));
        self.clears();
        Turn::Made
    }

    /// Makes a step of cleaning.
    fn clean<S: Sites>(&mut self, here: &Here, step: CleanStep, sites: &mut S) -> Turn
        requires next { CleansNext self.old (clean_todo step) }
        requires goes { CanTurn S.Sites here.now sites.old (whole self.old) }
        ensures turn { HasStepped S.Sites result here.now sites.old sites.new
            (whole self.old) self.old self.new }
    {
        match step {
            CleanStep::Pair { who, row } => self.clean_pair(here, who, row, sites),
            CleanStep::Wipe(row) => self.wipe(here, row, sites),
            CleanStep::Vacate(row) => self.vacate(here, row, sites),
            CleanStep::Recycle(row) => self.recycle(here, row, sites),
        }
    }

    /// Has the thread begin its line.
    fn begin<S: Sites>(&mut self, here: &Here, sites: &mut S) -> Turn
        requires given { IsGiven here.now.image.now }
        requires clear { IsClear self.old }
        requires goes { CanTurn S.Sites here.now sites.old (in_phase Phase.Begin self.old.running) }
        ensures turn { HasStepped S.Sites result here.now sites.old sites.new
            (in_phase Phase.Begin self.old.running) self.old self.new }
    {
        self.running.begin(here, &mut self.ends, sites)
    }

    /// Has nobody join the thread any more. Those who wait for its end will be told.
    fn leave<S: Sites>(&mut self, here: &Here, sites: &mut S) -> Turn
        requires clear { IsClear self.old }
        requires goes { CanTurn S.Sites here.now sites.old (in_phase Phase.Leave self.old.running) }
        ensures turn { HasStepped S.Sites result here.now sites.old sites.new
            (in_phase Phase.Leave self.old.running) self.old self.new }
    {
        took!(self.running.leave(here, &mut self.outcome, sites));
        self.told = 0;
        Turn::Made
    }

    /// Handles the mark in its hand. Who is woken will be told.
    fn handle<S: Sites>(&mut self, here: &Here, sites: &mut S) -> Turn
        requires clear { IsClear self.old }
        requires goes { CanTurn S.Sites here.now sites.old (in_phase Phase.Handle self.old.running) }
        ensures turn { HasStepped S.Sites result here.now sites.old sites.new
            (in_phase Phase.Handle self.old.running) self.old self.new }
    {
        took!(self.running.handle(here, &mut self.outcome, sites));
        self.told = 0;
        Turn::Made
    }

    /// Has the thread exit after its last line.
    fn exit<S: Sites>(&mut self, here: &Here, sites: &mut S) -> Turn
        requires clear { IsClear self.old }
        requires goes { CanTurn S.Sites here.now sites.old (in_phase Phase.Exit self.old.running) }
        ensures turn { HasStepped S.Sites result here.now sites.old sites.new
            (in_phase Phase.Exit self.old.running) self.old self.new }
    {
        self.running.exit(here, &mut self.ends, sites)
    }

    /// Visits a row to drop the thread's permission there. If that brings the row to cleaning, its object joins those to clean.
    fn drop_permission<S: Sites>(&mut self, here: &Here, sites: &mut S) -> Turn
        requires clear { IsClear self.old }
        requires goes { CanTurn S.Sites here.now sites.old (in_phase Phase.Drop self.old.running) }
        ensures turn { HasStepped S.Sites result here.now sites.old sites.new
            (in_phase Phase.Drop self.old.running) self.old self.new }
    {
        let row = self.running.row();
        let mut cleans = false;
        let turn = self.running.drop_permission(here, &mut cleans, sites);
        self.cleans.take_in_if(here.image, row, cleans);
        turn
    }

    /// Makes a step after which nothing has to be done before the next one.
    fn go_plain<S: Sites>(&mut self, here: &Here, sites: &mut S) -> Turn
        requires given { IsGiven here.now.image.now }
        requires plain { IsTrue (is_plain_phase self.old.running.phase) }
        requires clear { IsClear self.old }
        requires goes { CanTurn S.Sites here.now sites.old (whole self.old) }
        ensures turn { HasStepped S.Sites result here.now sites.old sites.new
            (whole self.old) self.old self.new }
    {
        self.running.go(here, sites)
    }

    /// Makes the thread's next fine step, in whatever phase it is.
    fn go<S: Sites>(&mut self, here: &Here, sites: &mut S) -> Turn
        requires given { IsGiven here.now.image.now }
        requires runs { is_idle self.old.running.phase ≡ false }
        requires clear { IsClear self.old }
        requires goes { CanTurn S.Sites here.now sites.old (whole self.old) }
        ensures turn { HasStepped S.Sites result here.now sites.old sites.new
            (whole self.old) self.old self.new }
    {
        match self.running.phase() {
            Phase::Access => self.show(here, sites),
            Phase::Start => self.show(here, sites),
            Phase::Show => self.show(here, sites),
            Phase::Act => self.show(here, sites),
            Phase::Begin => self.begin(here, sites),
            Phase::Leave => self.leave(here, sites),
            Phase::Handle => self.handle(here, sites),
            Phase::Exit => self.exit(here, sites),
            Phase::Drop => self.drop_permission(here, sites),
            _ => self.go_plain(here, sites),
        }
    }

    /// Makes the next step, given that no object has to be cleaned.
    #[tactic(auto, using(crate::proofs::Lifted::none_left, std::proofs::lemmas::List::drop_all))]
    fn step_behind<S: Sites>(&mut self, here: &Here, sites: &mut S) -> Turn
        requires given { IsGiven here.now.image.now }
        requires runs { is_idle self.old.running.phase ≡ false }
        requires cleans { self.old.cleans ≡ [] }
        requires goes { CanTurn S.Sites here.now sites.old (whole self.old) }
        ensures turn { HasStepped S.Sites result here.now sites.old sites.new
            (whole self.old) self.old self.new }
    {
        if self.ends.len() > 0 {
            return self.end_call(here, sites);
        }
        if self.told < self.outcome.woken.len() {
            return self.wake(here, sites);
        }
        self.go(here, sites)
    }

    /// Makes its next step. A processor without a thread takes one. Otherwise objects to clean come first, then claims to end, then threads
    /// to wake, and then the thread's own step.
    #[inline(always)]
    pub fn step<S: Sites>(&mut self, image: &Image, cpu: u8, sites: &mut S) -> Turn
        requires sites { S.IsOf image.now sites.old }
        requires given { IsGiven image.now }
        requires goes { MayTurn S.Sites cpu image.now sites.old (whole self.old) }
        ensures image { S.IsOf image.now sites.new }
        ensures same { UnlessMade result (whole self.new ≡ whole self.old) }
        ensures turn { TurnsAt S.Sites result cpu image.now sites.old sites.new
            (whole self.old) (whole self.new) }
        ensures takes { (whole self.old).todo ≡ [] → IdlesAt S.Sites Site.scheduler is_turn result cpu image.now sites.old sites.new
            (whole self.old) (whole self.new) }
    {
        let here = &Here { image, cpu };
        if self.running.is_idle() {
            return self.take(here, sites);
        }
        match self.cleans.next() {
            Some(step) => self.clean(here, step, sites),
            None => self.step_behind(here, sites),
        }
    }

    /// Takes the first mark that is due, where it has no thread.
    pub fn give<S: Sites>(&mut self, image: &Image, cpu: u8, sites: &mut S) -> Turn
        requires idle { (whole self.old).todo ≡ [] }
        requires sites { S.IsOf image.now sites.old }
        requires goes { MayTurn S.Sites cpu image.now sites.old (whole self.old) }
        ensures image { S.IsOf image.now sites.new }
        ensures same { UnlessMade result (whole self.new ≡ whole self.old) }
        ensures turn { IdlesAt S.Sites Site.clock is_due_act result cpu image.now sites.old sites.new
            (whole self.old) (whole self.new) }
    {
        let here = &Here { image, cpu };
        took!(self.running.give(here, sites));
        self.clears();
        Turn::Made
    }

    /// Lets time go on to the next deadline, where it has no thread.
    pub fn tick<S: Sites>(&mut self, image: &Image, cpu: u8, sites: &mut S) -> Turn
        requires idle { (whole self.old).todo ≡ [] }
        requires sites { S.IsOf image.now sites.old }
        requires goes { MayTurn S.Sites cpu image.now sites.old (whole self.old) }
        ensures image { S.IsOf image.now sites.new }
        ensures same { UnlessMade result (whole self.new ≡ whole self.old) }
        ensures turn { IdlesAt S.Sites Site.clock is_tick result cpu image.now sites.old sites.new
            (whole self.old) (whole self.new) }
    {
        let here = &Here { image, cpu };
        took!(self.running.tick(here, sites));
        self.clears();
        Turn::Made
    }
}
