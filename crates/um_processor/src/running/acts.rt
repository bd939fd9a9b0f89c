//! Acts at no object: a deadline is armed, the end of a thread is awaited, and a futex.

ghost use Rattle.std.specs.Prelude.{◌≡◌, ◌<◌, [], drop, false};
ghost use Rattle.um_base.specs.declared.limits.TheConstants.{THREADS};
ghost use Rattle.um_tables.specs.Seekers.{seeker_of};
ghost use Rattle.um_machine.specs.Goes.{Change, Next, Way, asked_way, work_change};
ghost use Rattle.um_machine.specs.declared.pending.Pending.TheVariants as Pending;
ghost use Rattle.um_fine.specs.Places.{is_patient};
ghost use Rattle.um_processor.specs.{Events.{gone_by, rereads_behind, rest_of, shows, waited_by, with_woken}, Phases.{first_of, is_idle}, Processors.{OnMade, UnlessMade, processor_of, ready_of, settling_of}, Turns.{CanTurn, HasRun, TurnsAt}};

use crate::phase::Turn;
use crate::running::Running;
use crate::running::timed::{is_patient, mark_for};
use crate::turns::made;
use um_base::{Access, Addr, Answer, Image, ThreadIx, Timeout};
use um_machine::Pending;
use um_service::Outcome;
use um_tables::{FutexWait, FutexWake, Here, Seeker, Sites};

/// The site of the cell of memory.
const MEMORY: u16 = 304;

/// That of the joins.
const JOINS: u16 = 308;

impl Running {
    /// Its thread, as one that may begin to wait.
    fn seeker(&self) -> Seeker
        ensures value { result ≡ seeker_of self.now.context.value }
        ensures small { result.thread.0 < THREADS }
    {
        let thread = self.thread();
        let seeker = self.context.seeker();
        Seeker {
            thread,
            priority: seeker.priority,
            until: seeker.until,
            noted: seeker.noted,
        }
    }

    /// The step behind the next one.
    #[tactic(auto, using(um_tables::proofs::Fronts::dropped_twice))]
    fn behind(&mut self) -> Pending
        ensures step { result ≡ first_of (rest_of self.old) }
        ensures same { self.new ≡ self.old }
    {
        if self.visited {
            return self.third_step();
        }
        self.second_step()
    }

    /// Arms a deadline so many ticks from now, for the act behind this step.
    pub fn arm<S: Sites>(&mut self, here: &Here, ticks: u32, sites: &mut S) -> Turn
        requires goes { CanTurn S.Sites here.now sites.old (shows (Pending.Arm ticks) self.old) }
        ensures turn { HasRun S.Sites result here.now sites.old sites.new
            (shows (Pending.Arm ticks) self.old) self.old self.new }
    {
        let thread = self.thread();
        let act = self.behind();
        let mark = mark_for(here.image, thread.0, &act);
        let deadline = made!(sites.arm(here, thread, ticks, mark));
        let taken = self.taken();
        self.context.arms(here.image, deadline, taken);
        self.leaves(here.image, thread.0);
        Turn::Made
    }

    /// Arms the deadline to which it starts a timer next.
    pub fn arm_timer<S: Sites>(&mut self, here: &Here, ticks: u32, sites: &mut S) -> Turn
        requires goes { CanTurn S.Sites here.now sites.old (shows (Pending.ArmTimer ticks) self.old) }
        ensures turn { HasRun S.Sites result here.now sites.old sites.new
            (shows (Pending.ArmTimer ticks) self.old) self.old self.new }
    {
        let thread = self.thread();
        let act = self.behind();
        let mark = mark_for(here.image, thread.0, &act);
        let deadline = made!(sites.arm(here, thread, ticks, mark));
        let taken = self.taken();
        self.context.arms_timer(here.image, deadline, taken);
        self.leaves(here.image, thread.0);
        Turn::Made
    }

    /// Goes on after it asked for the end of a thread.
    fn joins(&mut self, image: &Image, timeout: Timeout, answer: Answer)
        ensures { processor_of self.new ≡ waited_by image.now [] (rereads_behind (is_patient timeout) answer) 308
            (Next.on (work_change answer []) (asked_way answer)) self.old }
    {
        let thread = self.context.thread();
        let taken = self.taken();
        self.context.asks(image, answer, taken);
        match answer {
            Answer::Wait => {
                if is_patient(timeout) {
                    self.leaves_waiting(image, thread, JOINS);
                } else {
                    self.leaves(image, thread);
                }
            }
            Answer::Now(_) => self.leaves(image, thread),
        }
    }

    /// Asks for the end of a thread.
    pub fn join<S: Sites>(
        &mut self,
        here: &Here,
        who: ThreadIx,
        timeout: Timeout,
        sites: &mut S,
    ) -> Turn
        requires goes { CanTurn S.Sites here.now sites.old (shows (Pending.Join who timeout) self.old) }
        ensures turn { HasRun S.Sites result here.now sites.old sites.new
            (shows (Pending.Join who timeout) self.old) self.old self.new }
    {
        let seeker = self.seeker();
        let answer = made!(sites.join(here, &seeker, who, timeout));
        self.joins(here.image, timeout, answer);
        Turn::Made
    }

    /// Goes on after a wait on a futex.
    fn waits(&mut self, image: &Image, timeout: Timeout, answer: Answer)
        ensures { processor_of self.new ≡ waited_by image.now (settling_of (ready_of self.old)) (rereads_behind (is_patient timeout) answer) 304
            (Next.on (work_change answer []) (asked_way answer)) self.old }
    {
        let thread = self.context.thread();
        let taken = self.taken();
        self.context.asks(image, answer, taken);
        let waits = match answer {
            Answer::Wait => is_patient(timeout),
            Answer::Now(_) => false,
        };
        self.leaves_futex(image, thread, waits, MEMORY);
    }

    /// Waits on the futex at an address, where this number stands there.
    pub fn futex_wait<S: Sites>(
        &mut self,
        here: &Here,
        addr: Addr,
        value: u32,
        timeout: Timeout,
        sites: &mut S,
    ) -> Turn
        requires goes { CanTurn S.Sites here.now sites.old (shows (Pending.FutexWait addr value timeout) self.old) }
        ensures turn { HasRun S.Sites result here.now sites.old sites.new
            (shows (Pending.FutexWait addr value timeout) self.old) self.old self.new }
    {
        let act = FutexWait {
            seeker: self.seeker(),
            addr,
            value,
            allowed: self.allows(here.image, Access::Read, addr.0, 4),
            timeout,
        };
        let answer = made!(sites.futex_wait(here, &act));
        self.waits(here.image, timeout, answer);
        Turn::Made
    }

    /// Goes on after a wake on a futex.
    fn wakes(&mut self, image: &Image, answer: Answer)
        ensures { processor_of self.new ≡ gone_by image.now (Next.on (work_change answer []) (asked_way answer)) self.old }
    {
        let thread = self.context.thread();
        let taken = self.taken();
        self.context.asks(image, answer, taken);
        self.leaves(image, thread);
    }

    /// Wakes those who wait on the futex at an address, or the one that is served first. They are to be told.
    pub fn futex_wake<S: Sites>(
        &mut self,
        here: &Here,
        addr: Addr,
        all: bool,
        outcome: &mut Outcome,
        sites: &mut S,
    ) -> Turn
        requires goes { CanTurn S.Sites here.now sites.old (shows (Pending.FutexWake addr all) self.old) }
        ensures image { S.IsOf here.now.image.now sites.new }
        ensures outcome { UnlessMade result (outcome.new.woken ≡ outcome.old.woken) }
        ensures same { UnlessMade result (processor_of self.new ≡ processor_of self.old) }
        ensures runs { OnMade result (is_idle self.new.phase ≡ false) }
        ensures turn { TurnsAt S.Sites result here.now.cpu here.now.image.now sites.old sites.new
            (shows (Pending.FutexWake addr all) self.old)
            (with_woken outcome.new.woken (processor_of self.new)) }
    {
        let act = FutexWake {
            thread: self.thread(),
            addr,
            allowed: self.allows(here.image, Access::Read, addr.0, 4),
            all,
        };
        let answer = made!(sites.futex_wake(here, &act, &mut outcome.woken));
        self.wakes(here.image, answer);
        Turn::Made
    }
}
