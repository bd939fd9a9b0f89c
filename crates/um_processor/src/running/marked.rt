//! Marks: those of the processor's own thread, and one that is due and comes into its hand.

ghost use Rattle.std.specs.Prelude.{◌≡◌, ◌==◌, [], false, true, if◌then◌else◌};
ghost use Rattle.um_base.specs.declared.limits.TheConstants.{FUTEX_CELL};
ghost use Rattle.um_base.specs.declared.names.Reply.TheVariants as Reply;
ghost use Rattle.um_machine.specs.Time.{late_reply};
ghost use Rattle.um_words.specs.declared.fine.Mark.TheVariants as Mark;
ghost use Rattle.um_fine.specs.{Answers.{is_due_act, is_tick}, Processor.{actor_or, first_boot}, Steps.{Site}};
ghost use Rattle.um_processor.specs.declared.phase.Phase.TheVariants as Phase;
ghost use Rattle.um_processor.specs.{Events.{with_woken}, Phases.{is_idle}, Processors.{OnMade, UnlessMade, in_phase, processor_of}, Idles.{HasIdled}, Turns.{CanTurn, HasRun, TurnsAt}};

use crate::phase::{Phase, Turn};
use crate::running::Running;
use crate::turns::made;
use um_base::{Addr, FUTEX_CELL, Image, Piece, ROWS, Reply, Row, ThreadIx, Told};
use um_service::Outcome;
use um_steps::rows::{addr_of, thread_of_row};
use um_steps::time::late_reply;
use um_tables::{Here, Look, Sites, Waiting};
use um_words::Mark;

/// The thread of the first boot entry.
fn first_boot(image: &Image) -> u8
    ensures { result ≡ first_boot image.now image.now.boots }
{
    match image.boots.as_slice().first() {
        None => 0,
        Some(boot) => match thread_of_row(image, boot.thread.0 as usize) {
            None => 0,
            Some(t) => t as u8,
        },
    }
}

/// What a thread is told that waits at a site when its deadline has come.
fn told_late(site: u16) -> Told
    ensures { result ≡ record { reply = Reply.Fail (late_reply (if site == 304 then FUTEX_CELL else site)); taken = [] } }
{
    let cell = if site == 304 {
        FUTEX_CELL
    } else {
        site as usize
    };
    Told {
        reply: Reply::Fail(late_reply(cell)),
        taken: Piece::new(),
    }
}

impl Running {
    /// The thread by which it makes the events of time.
    fn actor(&self, image: &Image) -> ThreadIx
        ensures { result.0 ≡ actor_or image.now self.now.actor }
    {
        match self.actor {
            None => ThreadIx(first_boot(image)),
            Some(t) => ThreadIx(t),
        }
    }

    /// Has one more mark be owed.
    pub fn owe<S: Sites>(&mut self, here: &Here, sites: &mut S) -> Turn
        requires goes { CanTurn S.Sites here.now sites.old (in_phase Phase.Owe self.old) }
        ensures turn { HasRun S.Sites result here.now sites.old sites.new
            (in_phase Phase.Owe self.old) self.old self.new }
    {
        made!(sites.owe(here));
        self.phase = Phase::Show;
        Turn::Made
    }

    /// Settles the mark for which its act was made.
    pub fn settle<S: Sites>(&mut self, here: &Here, sites: &mut S) -> Turn
        requires goes { CanTurn S.Sites here.now sites.old (in_phase Phase.Settle self.old) }
        ensures turn { HasRun S.Sites result here.now sites.old sites.new
            (in_phase Phase.Settle self.old) self.old self.new }
    {
        made!(sites.settle(here, self.deadline, self.mark));
        self.ends_settling(here.image);
        Turn::Made
    }

    /// Takes the first mark that is due.
    pub fn give<S: Sites>(&mut self, here: &Here, sites: &mut S) -> Turn
        requires goes { CanTurn S.Sites here.now sites.old (in_phase Phase.Idle self.old) }
        ensures turn { HasIdled S.Sites Site.clock is_due_act result here.now sites.old sites.new
            (in_phase Phase.Idle self.old) (processor_of self.old) (processor_of self.new) }
    {
        let (deadline, mark) = made!(sites.give(here));
        self.deadline = deadline;
        self.mark = mark;
        self.phase = Phase::Handle;
        Turn::Made
    }

    /// Lets time go on to the next deadline.
    pub fn tick<S: Sites>(&mut self, here: &Here, sites: &mut S) -> Turn
        requires idle { is_idle self.old.phase ≡ true }
        requires goes { CanTurn S.Sites here.now sites.old (in_phase Phase.Idle self.old) }
        ensures turn { HasIdled S.Sites Site.clock is_tick result here.now sites.old sites.new
            (in_phase Phase.Idle self.old) (processor_of self.old) (processor_of self.new) }
    {
        let thread = self.actor(here.image);
        made!(sites.tick(here, thread));
        self.actor = Some(thread.0);
        Turn::Made
    }

    /// Looks for the thread whose deadline has come, which is to be told then.
    fn time_out<S: Sites>(
        &mut self,
        here: &Here,
        who: ThreadIx,
        site: u16,
        outcome: &mut Outcome,
        sites: &mut S,
    ) -> Turn
        requires mark { self.old.mark ≡ Mark.Thread who site }
        requires goes { CanTurn S.Sites here.now sites.old (in_phase Phase.Handle self.old) }
        ensures image { S.IsOf here.now.image.now sites.new }
        ensures outcome { UnlessMade result (outcome.new.woken ≡ outcome.old.woken) }
        ensures same { UnlessMade result (processor_of self.new ≡ processor_of self.old) }
        ensures runs { OnMade result (is_idle self.new.phase ≡ false) }
        ensures turn { TurnsAt S.Sites result here.now.cpu here.now.image.now sites.old sites.new
            (in_phase Phase.Handle self.old)
            (with_woken outcome.new.woken (processor_of self.new)) }
    {
        let cell = match Waiting::at(site) {
            None => return Turn::Stuck,
            Some(cell) => cell,
        };
        let thread = self.actor(here.image);
        let look = Look::Late {
            thread,
            who,
            deadline: self.deadline,
            site,
        };
        let found = made!(sites.look(here, cell, &look));
        outcome.woken.clear();
        if found {
            outcome.woken.push(who, &told_late(site));
            self.actor = Some(thread.0);
        }
        self.phase = Phase::Paid;
        Turn::Made
    }

    /// Lets the timer of a row run out. Who is woken is to be told then.
    fn expire<S: Sites>(
        &mut self,
        here: &Here,
        row: Row,
        outcome: &mut Outcome,
        sites: &mut S,
    ) -> Turn
        requires mark { self.old.mark ≡ Mark.Timer row }
        requires goes { CanTurn S.Sites here.now sites.old (in_phase Phase.Handle self.old) }
        ensures image { S.IsOf here.now.image.now sites.new }
        ensures outcome { UnlessMade result (outcome.new.woken ≡ outcome.old.woken) }
        ensures same { UnlessMade result (processor_of self.new ≡ processor_of self.old) }
        ensures runs { OnMade result (is_idle self.new.phase ≡ false) }
        ensures turn { TurnsAt S.Sites result here.now.cpu here.now.image.now sites.old sites.new
            (in_phase Phase.Handle self.old)
            (with_woken outcome.new.woken (processor_of self.new)) }
    {
        let x = row.0 as usize;
        if x >= ROWS {
            return Turn::Stuck;
        }
        let thread = self.actor(here.image);
        let addr = Addr(addr_of(here.image, x));
        let found = made!(sites.expire(
            here,
            row,
            thread,
            addr,
            self.deadline,
            &mut outcome.woken,
        ));
        if found {
            self.actor = Some(thread.0);
        }
        self.phase = Phase::Paid;
        Turn::Made
    }

    /// Handles the mark in its hand. Who is woken is to be told then.
    pub fn handle<S: Sites>(&mut self, here: &Here, outcome: &mut Outcome, sites: &mut S) -> Turn
        requires goes { CanTurn S.Sites here.now sites.old (in_phase Phase.Handle self.old) }
        ensures image { S.IsOf here.now.image.now sites.new }
        ensures outcome { UnlessMade result (outcome.new.woken ≡ outcome.old.woken) }
        ensures same { UnlessMade result (processor_of self.new ≡ processor_of self.old) }
        ensures runs { OnMade result (is_idle self.new.phase ≡ false) }
        ensures turn { TurnsAt S.Sites result here.now.cpu here.now.image.now sites.old sites.new
            (in_phase Phase.Handle self.old)
            (with_woken outcome.new.woken (processor_of self.new)) }
    {
        match self.mark {
            Mark::Thread { who, site } => self.time_out(here, who, site, outcome, sites),
            Mark::Timer(row) => self.expire(here, row, outcome, sites),
        }
    }

    /// Has one mark less be owed.
    pub fn pay<S: Sites>(&mut self, here: &Here, sites: &mut S) -> Turn
        requires goes { CanTurn S.Sites here.now sites.old (in_phase Phase.Paid self.old) }
        ensures turn { HasRun S.Sites result here.now sites.old sites.new
            (in_phase Phase.Paid self.old) self.old self.new }
    {
        made!(sites.pay(here));
        self.phase = Phase::Idle;
        Turn::Made
    }

    /// Lets the index of the thread that is started be joined again.
    pub fn unshut<S: Sites>(&mut self, here: &Here, sites: &mut S) -> Turn
        requires goes { CanTurn S.Sites here.now sites.old (in_phase Phase.Unshut self.old) }
        ensures turn { HasRun S.Sites result here.now sites.old sites.new
            (in_phase Phase.Unshut self.old) self.old self.new }
    {
        made!(sites.unshut(here, self.newborn.thread));
        self.phase = Phase::Start;
        Turn::Made
    }
}
