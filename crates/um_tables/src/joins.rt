//! The contents of the joins' cell.

ghost use Rattle.std.specs.{Prelude.{◌≡◌, ◌<◌, [], None, Some, false, filter, not, true, length, replicate, slice_set, IfOk}, List.{list_any}};
ghost use Rattle.um_base.specs.declared.ask.Ask.TheVariants as Ask;
ghost use Rattle.um_base.specs.declared.limits.TheConstants.{THREADS};
ghost use Rattle.um_fine.specs.{
  Joins.{all_joined, asleep_at, begins_waiting, deadlocks, is_joined, join_answer, open_says, shut_down, sleeps},
  Opening.{no_notes},
  Seeking.{finds},
};
ghost use Rattle.um_machine.specs.{Joins.{joins}, Services.{in_order}};
ghost use Rattle.um_service.specs.Awaits.{all_well};
ghost use Rattle.um_tables.specs.{
  Looks.{left_by, look_sent},
  Seekers.{seeking},
};

use crate::asleep::Asleep;
use crate::context::Context;
use crate::look::Look;
use crate::seeker::Seeker;
use crate::slots::{get_or, put};
use std::alloc::Global;
use std::marker::Model;
use um_base::{Answer, Ask, Errno, OutOfMemory, Reply, THREADS, ThreadIx, Timeout};
use um_machine::Waiters;
use um_service::{Woken, end_joins};
use um_steps::waits::{is_joined, is_joining};

/// Who waits for the end of a thread, which threads nobody joins any more, and who sleeps.
#[derive(Drop)]
pub struct Joins {
    waiters: Box<Waiters>,
    /// By thread index: the number of its note when it began to wait here.
    noted: [u32; THREADS],
    /// By thread index: nobody joins it.
    shut: [bool; THREADS],
    /// By thread index.
    asleep: Vec<Asleep>,
}

impl Model for Joins {
    ghost use Rattle.std.specs.Prelude.{◌≡◌, length};
    ghost use Rattle.um_base.specs.declared.limits.TheConstants.{THREADS};
    ghost use Rattle.um_fine.specs.Joins.{Joins as Contents};

    ghost Value = { Contents };

    ghost view = { λ j. record {
      waiters = j.waiters.value;
      noted = j.noted;
      shut = j.shut;
      asleep = j.asleep.items;
    } };

    ghost invariant = { λ j. length j.asleep.items ≡ THREADS };
}

/// An empty place for each thread index.
fn places(alloc: Global) -> Result<Vec<Asleep>, OutOfMemory>
    ensures items { IfOk result (λ all. all.items ≡ replicate THREADS None) }
    ensures all { IfOk result (λ all. length all.items ≡ THREADS) }
{
    let mut all = Vec::with_capacity(alloc, THREADS)?;
    for _ in 0..THREADS {
        all.push(Asleep::empty(Box::new(alloc, Context::idle())?))?;
    }
    Ok(all)
}

/// All who wait for the end of a thread are woken. Returns whether somebody waited.
#[tactic(auto, using(crate::proofs::Told::none_chosen, crate::proofs::Told::all_others))]
fn wake_joining(waiters: &mut Waiters, who: ThreadIx, woken: &mut Woken) -> bool
    ensures joined { result ≡ list_any (joins who.0) waiters.old }
    ensures woken { woken.new ≡ all_well (in_order (filter (joins who.0) waiters.old)) }
    ensures left { waiters.new ≡ filter (λ w. not (joins who.0 w)) waiters.old }
{
    if !is_joined(who.0 as usize, waiters.as_slice()) {
        woken.clear();
        return false;
    }
    end_joins(waiters, who, woken);
    true
}

impl Joins {
    /// Makes the contents where nobody waits or sleeps, and nobody joins these threads.
    pub fn new(alloc: Global, shut: [bool; THREADS]) -> Result<Joins, OutOfMemory>
        ensures { IfOk result (λ j. j ≡ record { waiters = []; noted = no_notes; shut = shut; asleep = replicate THREADS None }) }
    {
        Ok(Joins {
            waiters: Box::new(alloc, Waiters::new())?,
            noted: [0; THREADS],
            shut,
            asleep: places(alloc)?,
        })
    }

    /// Whether a thread would wait for itself if it waited for the end of another one.
    fn deadlocks(&self, thread: ThreadIx, who: ThreadIx) -> bool
        ensures { result ≡ deadlocks self.now thread.0 who.0 }
    {
        who.0 == thread.0 || is_joining(who.0 as usize, thread.0 as usize, self.waiters.as_slice())
    }

    /// What a join says of a thread that may be joined.
    fn open_says(&self, thread: ThreadIx, who: ThreadIx, timeout: Timeout) -> Answer
        ensures { result ≡ open_says self.now thread.0 who.0 timeout }
    {
        match timeout {
            Timeout::NoWait => Answer::Now(Reply::Fail(Errno::EBUSY)),
            Timeout::Forever | Timeout::Ticks(_) => {
                if self.deadlocks(thread, who) {
                    Answer::Now(Reply::Fail(Errno::EDEADLK))
                } else {
                    Answer::Wait
                }
            }
        }
    }

    /// What a join says.
    fn says(&self, thread: ThreadIx, who: ThreadIx, timeout: Timeout) -> Answer
        ensures { result ≡ join_answer self.now thread.0 who.0 timeout }
    {
        if get_or(&self.shut, who.0 as usize, true) {
            return Answer::Now(Reply::Num(0));
        }
        self.open_says(thread, who, timeout)
    }

    /// A thread asks for the end of another one. Returns the answer; it waits if that says so.
    pub fn join(&mut self, seeker: &Seeker, who: ThreadIx, timeout: Timeout) -> Answer
        requires { seeker.now.thread.0 < THREADS }
        ensures answer { result ≡ join_answer self.old seeker.now.thread.0 who.0 timeout }
        ensures left { self.new ≡ begins_waiting self.old (seeking seeker.now (Ask.Join who)) result }
    {
        let answer = self.says(seeker.thread, who, timeout);
        match answer {
            Answer::Wait => {
                self.waiters.wait(&seeker.seeks(Ask::Join { who }));
                put(&mut self.noted, seeker.thread.0 as usize, seeker.noted);
            }
            Answer::Now(_) => {}
        }
        answer
    }

    /// The end of a thread comes: all who wait for it are woken, and nobody joins it any more. Returns whether somebody waited.
    pub fn leave(&mut self, who: ThreadIx, woken: &mut Woken) -> bool
        ensures joined { result ≡ is_joined self.old who.0 }
        ensures woken { woken.new ≡ all_joined self.old who.0 }
        ensures left { self.new ≡ shut_down self.old who.0 }
    {
        let joined = wake_joining(&mut self.waiters, who, woken);
        put(&mut self.shut, who.0 as usize, true);
        joined
    }

    /// A thread may be joined.
    pub fn unshut(&mut self, who: ThreadIx)
        ensures { self.new ≡ record self.old { shut = slice_set self.old.shut who.0 false } }
    {
        put(&mut self.shut, who.0 as usize, false);
    }

    /// A thread goes to sleep. The room for it is given back.
    pub fn sleep(&mut self, context: &mut Box<Context>)
        ensures { let c = context.old.value in self.new ≡ record self.old { asleep = slice_set self.old.asleep c.thread (Some c) } }
    {
        let thread = context.thread();
        self.asleep[thread as usize].put(context);
    }

    /// Takes a thread out that sleeps, and leaves the given room in its stead. Returns whether it sleeps.
    pub fn rouse(&mut self, who: ThreadIx, context: &mut Box<Context>) -> bool
        requires { who.0 < THREADS }
        ensures found { result ≡ sleeps self.old who.0 }
        ensures taken { result ≡ true → asleep_at self.old who.0 ≡ Some (context.new.value) }
        ensures kept { result ≡ false → context.new ≡ context.old }
        ensures left { self.new ≡ record self.old { asleep = slice_set self.old.asleep who.0 None } }
    {
        self.asleep[who.0 as usize].take(context)
    }

    /// Takes a thread out that is looked for, if it waits here. Returns whether it did.
    pub fn look(&mut self, look: &Look) -> bool
        ensures found { result ≡ finds self.old.waiters self.old.noted (look_sent look.now) }
        ensures left { self.new ≡ record self.old { waiters = left_by result look.now self.old.waiters } }
    {
        look.take_out(&mut self.waiters, &self.noted)
    }

    /// Whether nobody joins a thread.
    pub fn is_shut(&self, thread: usize) -> bool
        ensures { result ≡ Rattle.um_fine.specs.Joins.is_shut self.now thread }
    {
        get_or(&self.shut, thread, true)
    }

    /// Those who wait for the end of a thread.
    pub fn waiters(&self) -> &Waiters
        ensures { result.now ≡ self.now.waiters }
    {
        &self.waiters
    }
}
