//! The events by which threads are aborted, suspended and resumed, and the end of a thread that others await.

ghost use Rattle.std.specs.Prelude.{◌≡◌, ◌==◌, ◌&&◌, [], false, not};
ghost use Rattle.um_machine.specs.State.{is_living};
ghost use Rattle.um_machine.specs.declared.pending.Pending.TheVariants as Pending;
ghost use Rattle.um_processor.specs.declared.phase.Phase.TheVariants as Phase;
ghost use Rattle.um_processor.specs.{Events.{shows, with_woken}, Phases.{is_idle}, Processors.{OnMade, UnlessMade, in_phase, processor_of}, Turns.{CanTurn, HasEnded, HasRun, TurnsAt}};

use crate::phase::{Phase, Turn};
use crate::running::Running;
use crate::turns::made;
use arrayvec::ArrayVec;
use um_base::{THREADS, ThreadIx};
use um_service::Outcome;
use um_tables::{Here, Sites};
use um_words::{ThreadAct, ThreadWord};

/// Whether a thread that was aborted by another is looked for then, by the word that is left.
fn is_sought(word: &ThreadWord, who: ThreadIx, thread: ThreadIx) -> bool
    ensures { result ≡ (is_living word.now.life && not (who.0 == thread.0)) }
{
    word.is_living() && who.0 != thread.0
}

impl Running {
    /// Aborts a thread. Another one that lives is looked for then.
    pub fn abort<S: Sites>(&mut self, here: &Here, who: ThreadIx, sites: &mut S) -> Turn
        requires goes { CanTurn S.Sites here.now sites.old (shows (Pending.Abort who) self.old) }
        ensures turn { HasRun S.Sites result here.now sites.old sites.new
            (shows (Pending.Abort who) self.old) self.old self.new }
    {
        if who.0 as usize >= THREADS {
            return Turn::Stuck;
        }
        let thread = self.thread();
        let word = made!(sites.thread(here, who, &ThreadAct::Abort { thread, who }));
        self.goes_on(here.image);
        if is_sought(&word, who, thread) {
            self.looks_for(here.image, who.0, &word);
        }
        Turn::Made
    }

    /// Suspends a thread.
    pub fn suspend<S: Sites>(&mut self, here: &Here, who: ThreadIx, sites: &mut S) -> Turn
        requires goes { CanTurn S.Sites here.now sites.old (shows (Pending.Suspend who) self.old) }
        ensures turn { HasRun S.Sites result here.now sites.old sites.new
            (shows (Pending.Suspend who) self.old) self.old self.new }
    {
        if who.0 as usize >= THREADS {
            return Turn::Stuck;
        }
        let thread = self.thread();
        made!(sites.thread(here, who, &ThreadAct::Suspend { thread, who }));
        self.goes_on(here.image);
        Turn::Made
    }

    /// Resumes a thread that was suspended. If it lives, it is looked for among those who sleep.
    pub fn resume<S: Sites>(&mut self, here: &Here, who: ThreadIx, sites: &mut S) -> Turn
        requires goes { CanTurn S.Sites here.now sites.old (shows (Pending.Continue who) self.old) }
        ensures turn { HasRun S.Sites result here.now sites.old sites.new
            (shows (Pending.Continue who) self.old) self.old self.new }
    {
        if who.0 as usize >= THREADS {
            return Turn::Stuck;
        }
        let thread = self.thread();
        let word = made!(sites.thread(here, who, &ThreadAct::Continue { thread, who }));
        self.goes_on(here.image);
        if word.is_living() {
            self.looks_for_sleeper(who.0);
        }
        Turn::Made
    }

    /// Ends since it was aborted. The claims of its call are to end then.
    pub fn is_killed<S: Sites>(
        &mut self,
        here: &Here,
        ends: &mut ArrayVec<u8, 2>,
        sites: &mut S,
    ) -> Turn
        requires none { ends.old.items ≡ [] }
        requires goes { CanTurn S.Sites here.now sites.old (shows Pending.Killed self.old) }
        ensures ends { HasEnded S.Sites result here.now sites.old sites.new
            (shows Pending.Killed self.old) self.old self.new ends.old.items ends.new.items }
    {
        let thread = self.thread();
        made!(sites.thread(here, thread, &ThreadAct::Killed { thread }));
        self.context.gives_claims(ends);
        self.context.exits(here.image);
        self.leaves(here.image, thread.0);
        Turn::Made
    }

    /// Has nobody join the thread any more. Those who wait for its end are to be told.
    pub fn leave<S: Sites>(&mut self, here: &Here, outcome: &mut Outcome, sites: &mut S) -> Turn
        requires goes { CanTurn S.Sites here.now sites.old (in_phase Phase.Leave self.old) }
        ensures image { S.IsOf here.now.image.now sites.new }
        ensures outcome { UnlessMade result (outcome.new.woken ≡ outcome.old.woken) }
        ensures same { UnlessMade result (processor_of self.new ≡ processor_of self.old) }
        ensures runs { OnMade result (is_idle self.new.phase ≡ false) }
        ensures turn { TurnsAt S.Sites result here.now.cpu here.now.image.now sites.old sites.new
            (in_phase Phase.Leave self.old)
            (with_woken outcome.new.woken (processor_of self.new)) }
    {
        let thread = self.thread();
        let joined = made!(sites.leave(here, thread, &mut outcome.woken));
        if joined {
            self.actor = Some(thread.0);
        }
        self.phase = Phase::Show;
        Turn::Made
    }
}
