//! The reads of a thread's own word, its note, and how a suspended thread goes to sleep.

ghost use Rattle.std.specs.Prelude.{◌≡◌};
ghost use Rattle.um_words.specs.Threads.{is_awake};
ghost use Rattle.um_tables.specs.Contexts.{steps_behind};
ghost use Rattle.um_processor.specs.{Phases.{first_of, noted_phase}, Processors.{in_phase}, Turns.{CanTurn, HasRun}};
ghost use Rattle.um_processor.specs.declared.phase.Phase.TheVariants as Phase;

use crate::phase::{Phase, Turn};
use crate::running::Running;
use crate::turns::made;
use um_base::ThreadIx;
use um_machine::Pending;
use um_tables::{Here, Sites};
use um_words::{ThreadAct, ThreadWord};

/// Whether a thread that lives doesn't sleep.
fn is_awake(word: &ThreadWord) -> bool
    ensures { result ≡ is_awake word.now }
{
    word.aborted || !word.suspended
}

impl Running {
    /// The phase that comes behind the note of a cell.
    fn noted_phase(&self) -> Phase
        ensures { result ≡ noted_phase (first_of (steps_behind self.now.visited self.now.context.value.pending)) }
    {
        match self.step() {
            Pending::Arm { .. } => Phase::Owe,
            Pending::FutexWait { .. } => Phase::Hold,
            _ => Phase::Act,
        }
    }

    /// Has the thread's word note the cell in which its call may wait.
    pub fn note<S: Sites>(&mut self, here: &Here, sites: &mut S) -> Turn
        requires goes { CanTurn S.Sites here.now sites.old (in_phase Phase.Note self.old) }
        ensures turn { HasRun S.Sites result here.now sites.old sites.new
            (in_phase Phase.Note self.old) self.old self.new }
    {
        let thread = self.thread();
        let word = made!(sites.thread(here, thread, &ThreadAct::Note(self.cell)));
        self.context.notes(word.number);
        self.phase = self.noted_phase();
        Turn::Made
    }

    /// Reads the thread's word once more behind a wait. If it was aborted, it is looked for in its own cell.
    pub fn reread<S: Sites>(&mut self, here: &Here, sites: &mut S) -> Turn
        requires goes { CanTurn S.Sites here.now sites.old (in_phase Phase.Reread self.old) }
        ensures turn { HasRun S.Sites result here.now sites.old sites.new
            (in_phase Phase.Reread self.old) self.old self.new }
    {
        let thread = self.thread();
        let word = made!(sites.thread(here, thread, &ThreadAct::ReadWord));
        if word.aborted {
            self.sought = thread.0;
            self.place = self.cell;
            self.before = word.number;
            self.after = Phase::Open;
            self.phase = Phase::Look;
        } else {
            self.expands(here.image);
        }
        Turn::Made
    }

    /// Puts the suspended thread to sleep.
    pub fn sleep<S: Sites>(&mut self, here: &Here, sites: &mut S) -> Turn
        requires goes { CanTurn S.Sites here.now sites.old (in_phase Phase.Sleep self.old) }
        ensures turn { HasRun S.Sites result here.now sites.old sites.new
            (in_phase Phase.Sleep self.old) self.old self.new }
    {
        let thread = self.context.thread();
        made!(sites.sleep(here, &mut self.context));
        self.context.becomes_over(thread);
        self.phase = Phase::RereadAsleep;
        Turn::Made
    }

    /// Reads the word of the thread that sleeps once more. If it is to be awake, it is looked for.
    pub fn reread_asleep<S: Sites>(&mut self, here: &Here, sites: &mut S) -> Turn
        requires goes { CanTurn S.Sites here.now sites.old (in_phase Phase.RereadAsleep self.old) }
        ensures turn { HasRun S.Sites result here.now sites.old sites.new
            (in_phase Phase.RereadAsleep self.old) self.old self.new }
    {
        let thread = self.thread();
        let word = made!(sites.thread(here, thread, &ThreadAct::ReadWord));
        self.phase = Phase::Done;
        if is_awake(&word) {
            self.looks_for_sleeper(thread.0);
        }
        Turn::Made
    }
}
