//! The event of a thread's next step, and what has to be done after it, before the next step.

ghost use Rattle.std.specs.Prelude.{IsTrue};
ghost use Rattle.um_machine.specs.Limits.{IsSound, is_sound_ask};
ghost use Rattle.um_machine.specs.declared.pending.Pending.TheVariants as Pending;
ghost use Rattle.um_processor.specs.{Events.{check_for, parks, shows, shows_next}, Standing.{IsClear}, Subjects.{ends_claims}, Turns.{CanTurn, HasStepped}};

use crate::phase::Turn;
use crate::processor::Processor;
use crate::running::{Wanted, row_named};
use crate::turns::took;
use um_base::{Addr, Ask, Reply, ThreadIx};
use um_machine::Pending;
use um_tables::{Here, Sites};

impl Processor {
    /// Makes the event of a step after which claims end.
    fn show_with_ends<S: Sites>(&mut self, here: &Here, step: &Pending, sites: &mut S) -> Turn
        requires subject { IsTrue (ends_claims step.now) }
        requires clear { IsClear self.old }
        requires goes { CanTurn S.Sites here.now sites.old (shows step.now self.old.running) }
        ensures turn { HasStepped S.Sites result here.now sites.old sites.new
            (shows step.now self.old.running) self.old self.new }
    {
        match step {
            Pending::Answer { reply, to } => self
                .running
                .answer(here, &mut self.ends, *reply, *to, sites),
            Pending::Fatal { reason, cause } => self
                .running
                .fail(here, &mut self.ends, *reason, *cause, sites),
            Pending::ClearInit { addr } => self
                .running
                .clear_init(here, *addr, &mut self.ends, sites),
            Pending::Killed => self.running.is_killed(here, &mut self.ends, sites),
            _ => unreachable!(),
        }
    }

    /// Does a call's work on the object at an address. The threads that it wakes will be told.
    fn work<S: Sites>(&mut self, here: &Here, addr: Addr, ask: &Ask, sites: &mut S) -> Turn
        requires sound { IsTrue (is_sound_ask ask.now) }
        requires clear { IsClear self.old }
        requires goes { CanTurn S.Sites here.now sites.old
            (shows (Pending.Work addr ask.now) self.old.running) }
        ensures turn { HasStepped S.Sites result here.now sites.old sites.new
            (shows (Pending.Work addr ask.now) self.old.running) self.old self.new }
    {
        took!(self.running.work(here, addr, ask, &mut self.outcome, sites));
        self.told = 0;
        Turn::Made
    }

    /// Wakes those who wait on the futex at an address. They will be told.
    fn wake_futex<S: Sites>(&mut self, here: &Here, addr: Addr, all: bool, sites: &mut S) -> Turn
        requires clear { IsClear self.old }
        requires goes { CanTurn S.Sites here.now sites.old
            (shows (Pending.FutexWake addr all) self.old.running) }
        ensures turn { HasStepped S.Sites result here.now sites.old sites.new
            (shows (Pending.FutexWake addr all) self.old.running) self.old self.new }
    {
        took!(
            self.running
                .futex_wake(here, addr, all, &mut self.outcome, sites)
        );
        self.told = 0;
        Turn::Made
    }

    /// Takes a thread's permission for the object at an address away. If that brings the row to cleaning, the object joins those to clean.
    fn take_away<S: Sites>(&mut self, here: &Here, who: ThreadIx, addr: Addr, sites: &mut S) -> Turn
        requires clear { IsClear self.old }
        requires goes { CanTurn S.Sites here.now sites.old
            (shows (Pending.DropPair who addr) self.old.running) }
        ensures turn { HasStepped S.Sites result here.now sites.old sites.new
            (shows (Pending.DropPair who addr) self.old.running) self.old self.new }
    {
        let mut cleans = false;
        let turn = self.running.take_away(here, who, addr, &mut cleans, sites);
        let row = row_named(here.image, addr);
        self.cleans.take_in_if(here.image, row, cleans);
        turn
    }

    /// Makes the event of a step, if it has one.
    fn show_step<S: Sites>(&mut self, here: &Here, step: &Pending, sites: &mut S) -> Turn
        requires sound { IsSound step.now }
        requires clear { IsClear self.old }
        requires goes { CanTurn S.Sites here.now sites.old (shows step.now self.old.running) }
        ensures turn { HasStepped S.Sites result here.now sites.old sites.new
            (shows step.now self.old.running) self.old self.new }
    {
        match step {
            Pending::Begin | Pending::Exit => unreachable!(),
            Pending::Resume | Pending::Inherit { .. } | Pending::Drops { .. } => Turn::Stuck,
            Pending::CleanPair { .. } | Pending::Recycle | Pending::Left => Turn::Stuck,
            Pending::Tick | Pending::TimeOut { .. } | Pending::Expire => Turn::Stuck,
            Pending::Cut { .. } => Turn::Stuck,
            Pending::Work { addr, ask } => self.work(here, *addr, ask, sites),
            Pending::DropPair { who, addr } => self.take_away(here, *who, *addr, sites),
            Pending::FutexWake { addr, all } => self.wake_futex(here, *addr, *all, sites),
            Pending::Answer { .. } | Pending::Fatal { .. } | Pending::ClearInit { .. } =>
                self.show_with_ends(here, step, sites),
            Pending::Killed => self.show_with_ends(here, step, sites),
            _ => self.running.show(here, step, sites),
        }
    }

    /// Puts the thread back.
    fn park<S: Sites>(&mut self, here: &Here, sites: &mut S) -> Turn
        requires clear { IsClear self.old }
        requires goes { CanTurn S.Sites here.now sites.old (parks self.old.running) }
        ensures turn { HasStepped S.Sites result here.now sites.old sites.new
            (parks self.old.running) self.old self.new }
    {
        self.running.park(here, sites)
    }

    /// Makes the event of a check.
    fn check<S: Sites>(&mut self, here: &Here, wanted: &Wanted, sites: &mut S) -> Turn
        requires clear { IsClear self.old }
        requires goes { CanTurn S.Sites here.now sites.old (shows (check_for wanted.now) self.old.running) }
        ensures turn { HasStepped S.Sites result here.now sites.old sites.new
            (shows (check_for wanted.now) self.old.running) self.old self.new }
    {
        self.running.check(here, wanted, sites)
    }

    /// Makes the event of a load.
    fn load<S: Sites>(&mut self, here: &Here, to: u8, addr: Addr, size: u32, sites: &mut S) -> Turn
        requires clear { IsClear self.old }
        requires goes { CanTurn S.Sites here.now sites.old
            (shows (Pending.Load to addr size) self.old.running) }
        ensures turn { HasStepped S.Sites result here.now sites.old sites.new
            (shows (Pending.Load to addr size) self.old.running) self.old self.new }
    {
        self.running.load(here, to, addr, size, sites)
    }

    /// Makes the event of an answer, after which claims end.
    fn answer<S: Sites>(
        &mut self,
        here: &Here,
        reply: Option<Reply>,
        to: Option<u8>,
        sites: &mut S,
    ) -> Turn
        requires clear { IsClear self.old }
        requires goes { CanTurn S.Sites here.now sites.old
            (shows (Pending.Answer reply to) self.old.running) }
        ensures turn { HasStepped S.Sites result here.now sites.old sites.new
            (shows (Pending.Answer reply to) self.old.running) self.old self.new }
    {
        self.running.answer(here, &mut self.ends, reply, to, sites)
    }

    /// Makes the event of the thread's next step. A thread without one is put back. Of the most frequent steps no more is read than they
    /// have.
    pub fn show<S: Sites>(&mut self, here: &Here, sites: &mut S) -> Turn
        requires clear { IsClear self.old }
        requires goes { CanTurn S.Sites here.now sites.old (shows_next self.old.running) }
        ensures turn { HasStepped S.Sites result here.now sites.old sites.new
            (shows_next self.old.running) self.old self.new }
    {
        if self.running.has_visited() {
            return self.show_any(here, sites);
        }
        match self.running.first() {
            Some(Pending::Work { addr, ask }) => self.work(here, addr, &ask, sites),
            Some(
                Pending::Check {
                    addr,
                    kind,
                    want,
                    refusal,
                },
            ) => {
                let wanted = Wanted {
                    addr,
                    kind,
                    want,
                    refusal,
                };
                self.check(here, &wanted, sites)
            }
            Some(Pending::Answer { reply, to }) => self.answer(here, reply, to, sites),
            Some(Pending::Load { to, addr, size }) => self.load(here, to, addr, size, sites),
            _ => self.show_any(here, sites),
        }
    }

    /// The same for any step.
    #[inline(never)]
    fn show_any<S: Sites>(&mut self, here: &Here, sites: &mut S) -> Turn
        requires clear { IsClear self.old }
        requires goes { CanTurn S.Sites here.now sites.old (shows_next self.old.running) }
        ensures turn { HasStepped S.Sites result here.now sites.old sites.new
            (shows_next self.old.running) self.old self.new }
    {
        match self.running.next_step() {
            None => self.park(here, sites),
            Some(step) => self.show_step(here, &step, sites),
        }
    }
}
