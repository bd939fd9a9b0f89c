//! Errands: looks for a thread that was aborted or that sleeps, and how it gets ready.

ghost use Rattle.std.specs.Prelude.{◌≡◌, true};
ghost use Rattle.um_fine.specs.{Follows.{filled_up, looks_for}, Places.{Todo}};
ghost use Rattle.um_processor.specs.{Events.{with_errand}, Phases.{behind_phase, is_going, is_over, kept_phase}, Processors.{behind_errand, in_phase, processor_of, with_todo}, Turns.{CanTurn, HasRun}};
ghost use Rattle.um_processor.specs.declared.phase.Phase.TheVariants as Phase;

use crate::phase::{Phase, Turn};
use crate::running::Running;
use crate::turns::made;
use um_base::{Image, THREADS, ThreadIx};
use um_tables::{Here, Look, Sites, Waiting};
use um_words::ThreadWord;

/// Whether nothing stands in a phase before the thread's next step.
fn is_over(phase: Phase) -> bool
    ensures { result ≡ is_over phase }
{
    match phase {
        Phase::Open | Phase::Idle => true,
        _ => false,
    }
}

/// A phase that comes behind an errand, or that in which the thread is put back.
fn behind_phase(phase: Phase) -> Phase
    ensures { result ≡ behind_phase phase }
{
    match phase {
        Phase::Look | Phase::TellCut | Phase::Rouse | Phase::AddRoused => Phase::Park,
        Phase::Handle | Phase::Paid => Phase::Park,
        _ => phase,
    }
}

/// The phase that stays behind an errand before it.
fn kept_phase(phase: Phase) -> Phase
    ensures { result ≡ kept_phase phase }
{
    match phase {
        Phase::Open => Phase::Park,
        _ => phase,
    }
}

impl Running {
    /// Looks for a thread next, in the cell that its word notes, or among those who sleep. What was next comes behind that.
    #[tactic(auto, using(crate::proofs::Errands::look_stands, crate::proofs::Errands::rouse_stands))]
    pub fn looks_for(&mut self, image: &Image, who: u8, word: &ThreadWord)
        requires goes { is_going self.old.phase ≡ true }
        ensures { processor_of self.new ≡ record (processor_of self.old) {
          todo = looks_for image.now who word.now (processor_of self.old).todo;
        } }
    {
        self.sought = who;
        self.after = kept_phase(self.phase);
        match word.note {
            Some(site) => {
                self.place = site;
                self.before = word.number;
                self.phase = Phase::Look;
            }
            None => self.phase = Phase::Rouse,
        }
    }

    /// Looks for a thread next among those who sleep.
    #[tactic(auto, using(crate::proofs::Errands::rouse_stands))]
    pub fn looks_for_sleeper(&mut self, who: u8)
        requires goes { is_going self.old.phase ≡ true }
        ensures { processor_of self.new ≡ with_errand (Todo.rouse who) (processor_of self.old) }
    {
        self.sought = who;
        self.after = kept_phase(self.phase);
        self.phase = Phase::Rouse;
    }

    /// Goes on behind an errand.
    #[tactic(auto, using(crate::proofs::Expanded::behind_goes, crate::proofs::Expanded::over_goes))]
    fn ends_errand(&mut self, image: &Image)
        ensures { processor_of self.new ≡ with_todo self.old
            (filled_up image.now self.old.context.value (behind_errand self.old.after self.old)) }
    {
        if is_over(self.after) {
            self.expands(image);
        } else {
            self.phase = behind_phase(self.after);
        }
    }

    /// Looks for a thread that was aborted, in a cell.
    pub fn look<S: Sites>(&mut self, here: &Here, sites: &mut S) -> Turn
        requires goes { CanTurn S.Sites here.now sites.old (in_phase Phase.Look self.old) }
        ensures turn { HasRun S.Sites result here.now sites.old sites.new
            (in_phase Phase.Look self.old) self.old self.new }
    {
        let cell = match Waiting::at(self.place) {
            None => return Turn::Stuck,
            Some(cell) => cell,
        };
        let thread = self.thread();
        let look = Look::Aborted {
            thread,
            who: ThreadIx(self.sought),
            before: self.before,
        };
        let found = made!(sites.look(here, cell, &look));
        if found {
            self.actor = Some(thread.0);
            self.phase = Phase::TellCut;
        } else {
            self.ends_errand(here.image);
        }
        Turn::Made
    }

    /// Tells the scheduler that the thread was cut.
    pub fn tell_cut<S: Sites>(&mut self, here: &Here, sites: &mut S) -> Turn
        requires goes { CanTurn S.Sites here.now sites.old (in_phase Phase.TellCut self.old) }
        ensures turn { HasRun S.Sites result here.now sites.old sites.new
            (in_phase Phase.TellCut self.old) self.old self.new }
    {
        if self.sought as usize >= THREADS {
            return Turn::Stuck;
        }
        made!(sites.cut(here, ThreadIx(self.sought)));
        self.ends_errand(here.image);
        Turn::Made
    }

    /// Looks for a thread that sleeps.
    pub fn rouse<S: Sites>(&mut self, here: &Here, sites: &mut S) -> Turn
        requires goes { CanTurn S.Sites here.now sites.old (in_phase Phase.Rouse self.old) }
        ensures turn { HasRun S.Sites result here.now sites.old sites.new
            (in_phase Phase.Rouse self.old) self.old self.new }
    {
        if self.sought as usize >= THREADS {
            return Turn::Stuck;
        }
        let found = made!(sites.rouse(here, ThreadIx(self.sought), &mut self.room));
        if found {
            self.phase = Phase::AddRoused;
        } else {
            self.ends_errand(here.image);
        }
        Turn::Made
    }

    /// Makes a thread ready that slept.
    pub fn add_roused<S: Sites>(&mut self, here: &Here, sites: &mut S) -> Turn
        requires goes { CanTurn S.Sites here.now sites.old (in_phase Phase.AddRoused self.old) }
        ensures turn { HasRun S.Sites result here.now sites.old sites.new
            (in_phase Phase.AddRoused self.old) self.old self.new }
    {
        made!(sites.add(here, &mut self.room));
        self.ends_errand(here.image);
        Turn::Made
    }
}
