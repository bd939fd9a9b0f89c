//! How a thread goes on after an event that changes nothing of it.

ghost use Rattle.std.specs.Prelude.{◌≡◌, ◌<◌, ◌++◌, [], drop, true};
ghost use Rattle.um_base.specs.Places.{own_row};
ghost use Rattle.um_fine.specs.Follows.{filled_up};
ghost use Rattle.um_machine.specs.Goes.{Change, Next, Way};
ghost use Rattle.um_machine.specs.declared.pending.Pending.TheVariants as Pending;
ghost use Rattle.um_processor.specs.{Events.{gone_by, left_behind, rest_of, shows, todo_after}, Processors.{processor_of, ready_of, rereading_of, rereads_if, settling_of, with_todo}, Turns.{CanTurn, HasRun}};

use crate::phase::{Phase, Turn};
use crate::running::Running;
use crate::turns::made;
use um_base::{Image, ROWS, Row, STATIC_ROWS, STATIC_THREADS, THREADS, ThreadIx};
use um_steps::rows;
use um_tables::{Here, Sites};

/// The row of a thread's own object. If there is no such thread, it may be past the last row.
pub fn own_row(image: &Image, who: ThreadIx) -> usize
    ensures { result ≡ own_row image.now who.0 }
{
    let t = who.0 as usize;
    if t < THREADS {
        rows::own_row(image, t)
    } else {
        STATIC_ROWS + (t - STATIC_THREADS)
    }
}

impl Running {
    /// How many pending steps are over after the next one: 2 if visits stood before it, else 1.
    #[tactic(auto, using(um_tables::proofs::Fronts::dropped_twice))]
    pub fn taken(&self) -> usize
        ensures some { 0 < result }
        ensures rest { drop result self.now.context.value.pending ≡ rest_of self.now }
    {
        if self.visited { 2 } else { 1 }
    }

    /// Goes on after an act is over: a mark is settled, or the thread's word is read once more, or its next step comes.
    pub fn ends_act(&mut self, image: &Image)
        ensures { processor_of self.new ≡ with_todo self.old
            (filled_up image.now self.old.context.value (settling_of (ready_of self.old) ++ rereading_of (ready_of self.old))) }
    {
        if self.settles {
            self.phase = Phase::Settle;
        } else {
            self.ends_settling(image);
        }
    }

    /// Goes on after the mark is settled.
    pub fn ends_settling(&mut self, image: &Image)
        ensures { processor_of self.new ≡ with_todo self.old
            (filled_up image.now self.old.context.value (rereading_of (ready_of self.old))) }
    {
        if self.rereads {
            self.phase = Phase::Reread;
        } else {
            self.expands(image);
        }
    }

    /// Goes on after the event of a step by this thread, by the phase in which it stood.
    pub fn leaves(&mut self, image: &Image, thread: u8)
        ensures { processor_of self.new ≡ left_behind image.now (todo_after self.old.phase [] (ready_of self.old))
            self.old.context.value thread self.old }
    {
        self.actor = Some(thread);
        match self.phase {
            Phase::Access => self.phase = Phase::ReadDone,
            Phase::Start => {
                self.rereads = false;
                self.phase = Phase::StartLetGo;
            }
            Phase::Act => {
                self.rereads = false;
                self.ends_act(image);
            }
            _ => self.expands(image),
        }
    }

    /// The same after an act that waits in the cell of this site.
    pub fn leaves_waiting(&mut self, image: &Image, thread: u8, site: u16)
        ensures { processor_of self.new ≡ left_behind image.now
            (todo_after self.old.phase [] (ready_of self.old) ++ rereads_if true site) self.old.context.value thread self.old }
    {
        self.actor = Some(thread);
        self.rereads = true;
        self.cell = site;
        match self.phase {
            Phase::Access => {
                self.settles = false;
                self.phase = Phase::ActDone;
            }
            Phase::Start => self.phase = Phase::StartLetGo,
            Phase::Act => self.ends_act(image),
            _ => self.phase = Phase::Reread,
        }
    }

    /// The same after a wait on a futex was asked for, in the cell of this site.
    pub fn leaves_futex(&mut self, image: &Image, thread: u8, waits: bool, site: u16)
        ensures { processor_of self.new ≡ left_behind image.now
            (todo_after self.old.phase (settling_of (ready_of self.old)) (ready_of self.old) ++ rereads_if waits site)
            self.old.context.value thread self.old }
    {
        self.actor = Some(thread);
        self.rereads = waits;
        self.cell = site;
        match self.phase {
            Phase::Access => self.phase = Phase::ActDone,
            Phase::Start => self.phase = Phase::StartLetGo,
            Phase::Act => self.ends_act(image),
            _ => self.ends_settling(image),
        }
    }

    /// Has the thread go on after its next step, and the processor too.
    pub fn goes_on(&mut self, image: &Image)
        ensures { processor_of self.new ≡ gone_by image.now (Next.on Change.nothing Way.rest) self.old }
    {
        let thread = self.context.thread();
        self.context.leaves_step(image, self.visited);
        self.leaves(image, thread);
    }

    /// Gives a thread the name in the buffer.
    pub fn name<S: Sites>(&mut self, here: &Here, who: ThreadIx, sites: &mut S) -> Turn
        requires goes { CanTurn S.Sites here.now sites.old (shows (Pending.Named who) self.old) }
        ensures turn { HasRun S.Sites result here.now sites.old sites.new
            (shows (Pending.Named who) self.old) self.old self.new }
    {
        let x = own_row(here.image, who);
        if x >= ROWS {
            return Turn::Stuck;
        }
        let thread = self.thread();
        let bytes = self.context.buffer();
        made!(sites.name(here, Row(x as u8), thread, who, bytes));
        self.goes_on(here.image);
        Turn::Made
    }
}
