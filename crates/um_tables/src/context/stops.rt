//! How a thread arms a deadline, waits where it asks no object, and goes to sleep.

ghost use Rattle.std.specs.Prelude.{◌≡◌, ◌<◌, ◌∷◌, [], None, Some, drop, true};
ghost use Rattle.um_base.specs.declared.limits.TheConstants.{THREADS};
ghost use Rattle.um_machine.specs.declared.pending.Pending.TheVariants as Pending;
ghost use Rattle.um_machine.specs.Goes.{Change, Next, Way, asked_way, work_change};
ghost use Rattle.um_fine.specs.{Continues.{gone_part}, Scheduler.{to_kill}};
ghost use Rattle.um_tables.specs.Contexts.{over};

use crate::context::Context;
use crate::pieces::empties;
use um_base::{Answer, Image};
use um_machine::Pending;
use um_steps::order::runs_to;

impl Context {
    /// Goes on after its call armed this deadline.
    pub fn arms(&mut self, image: &Image, deadline: u64, taken: usize)
        ensures { self.new ≡ gone_part image.now (drop taken self.old.pending)
            (Next.on (Change.until (Some deadline)) Way.rest) self.old }
    {
        self.own.until = Some(deadline);
        self.own.goes_on(image, taken);
    }

    /// Goes on after it armed the deadline to which it starts a timer.
    pub fn arms_timer(&mut self, image: &Image, deadline: u64, taken: usize)
        ensures { self.new ≡ gone_part image.now (drop taken self.old.pending)
            (Next.on (Change.until None) (Way.runs_to deadline)) self.old }
    {
        self.own.until = None;
        self.own.pending.skip(taken);
        runs_to(&mut self.own.pending, deadline);
        self.own.rests(image);
    }

    /// Goes on after a call that asks no object: with its answer, or it waits.
    pub fn asks(&mut self, image: &Image, answer: Answer, taken: usize)
        requires { 0 < taken }
        ensures { self.new ≡ gone_part image.now (drop taken self.old.pending)
            (Next.on (work_change answer []) (asked_way answer)) self.old }
    {
        match answer {
            Answer::Wait => self.own.goes_to(&Pending::Resume, taken),
            Answer::Now(reply) => {
                self.own.reply = reply;
                empties(&mut self.own.buffer);
                self.own.goes_on(image, taken);
            }
        }
    }

    /// Its word has noted a cell, by the step of this number.
    pub fn notes(&mut self, number: u32)
        ensures { self.new ≡ record self.old { noted = Some number } }
    {
        self.noted = Some(number);
    }

    /// It was cut, and is to be killed.
    pub fn is_to_be_killed(&mut self)
        ensures { self.new ≡ to_kill true self.old }
    {
        self.own.turns_to(&Pending::Killed);
    }

    /// Becomes what is left of the own part of a thread that went to sleep.
    pub fn becomes_over(&mut self, thread: u8)
        requires { thread < THREADS }
        ensures { self.new ≡ over thread }
    {
        *self = Context::idle();
        self.thread = thread;
        self.ended = true;
    }
}
