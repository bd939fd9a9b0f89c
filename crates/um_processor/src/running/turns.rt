//! The begin and the end of a turn, and how a new thread gets ready.

ghost use Rattle.std.specs.Prelude.{◌≡◌};
ghost use Rattle.um_processor.specs.{Events.{parks}, Idles.{HasIdled, is_turn}, Processors.{in_phase, processor_of, turning}, Turns.{CanTurn, HasRun}};
ghost use Rattle.um_fine.specs.Steps.{Site};

use crate::phase::{Phase, Turn};
use crate::running::Running;
use crate::turns::made;
use um_base::{Image, THREADS};
use um_machine::places::instruction_at;
use um_tables::{Here, Sites};

impl Running {
    /// Goes to the first step of a turn.
    fn turns(&mut self, image: &Image)
        ensures { processor_of self.new ≡ turning image.now self.old }
    {
        self.phase = match instruction_at(image, self.context.place()) {
            Some(_) => Phase::Begin,
            None => Phase::Exit,
        };
    }

    /// Takes the first ready thread. A thread that was woken goes on in the same step.
    #[tactic(auto, using(crate::proofs::Idled::takes_turns))]
    pub fn take<S: Sites>(&mut self, here: &Here, sites: &mut S) -> Turn
        requires goes { CanTurn S.Sites here.now sites.old (in_phase Phase.Idle self.old) }
        ensures turn { HasIdled S.Sites Site.scheduler is_turn result here.now sites.old sites.new
            (in_phase Phase.Idle self.old) (processor_of self.old) (processor_of self.new) }
    {
        let woken = made!(sites.take(here, &mut self.context, &mut self.told));
        if woken {
            self.actor = Some(self.context.thread());
            self.context.resumes(here.image, &self.told);
            self.expands(here.image);
        } else if self.context.first().is_none() {
            self.turns(here.image);
        } else {
            self.expands(here.image);
        }
        Turn::Made
    }

    /// Puts the thread back.
    pub fn park<S: Sites>(&mut self, here: &Here, sites: &mut S) -> Turn
        requires goes { CanTurn S.Sites here.now sites.old (parks self.old) }
        ensures turn { HasRun S.Sites result here.now sites.old sites.new
            (parks self.old) self.old self.new }
    {
        made!(sites.park(here, &mut self.context));
        self.phase = Phase::Idle;
        Turn::Made
    }

    /// Makes the new thread ready.
    pub(crate) fn add<S: Sites>(&mut self, here: &Here, sites: &mut S) -> Turn
        requires at { self.old.phase ≡ Phase.Add }
        requires goes { CanTurn S.Sites here.now sites.old (in_phase Phase.Add self.old) }
        ensures turn { HasRun S.Sites result here.now sites.old sites.new
            (in_phase Phase.Add self.old) self.old self.new }
    {
        if self.newborn.thread.0 as usize >= THREADS {
            return Turn::Stuck;
        }
        self.room.becomes(&self.newborn);
        made!(sites.add(here, &mut self.room));
        self.ends_settling(here.image);
        Turn::Made
    }
}
