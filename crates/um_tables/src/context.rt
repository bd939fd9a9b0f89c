//! A thread, as the processor that runs it keeps it.

mod accesses;
mod births;
mod calls;
mod ends;
mod leaves;
mod lines;
mod objects;
mod reads;
mod stops;

ghost use Rattle.std.specs.Prelude.{◌≡◌, ◌<◌, drop};
ghost use Rattle.um_base.specs.declared.limits.TheConstants.{THREADS};
ghost use Rattle.um_fine.specs.{Context.{context_of, no_context}, Continues.{goes_on}, Scheduler.{waits}};
ghost use Rattle.um_tables.specs.Contexts.{rests};

use arrayvec::ArrayVec;
use std::marker::Model;
use um_base::Image;
use um_machine::{Pending, Thread};
use um_steps::blank::nobody;

/// A thread's own part: what no site keeps of a thread while a processor runs it. Several methods get the number of pending steps to take
/// off, `taken`. It is 1 for the step that was made, and 2 if an inheritance or an end's drops stood before that step, since these are over
/// then too.
#[derive(Drop)]
pub struct Context {
    thread: u8,
    /// Whether it has ended, or has doomed all.
    ended: bool,
    /// The machine's thread. Only the fields of the own part are used.
    own: Thread,
    /// The rows that its call holds, in the order of the checks.
    claims: ArrayVec<u8, 2>,
    /// The number of the step by which its word notes the cell in which its call may wait.
    noted: Option<u32>,
}

impl Model for Context {
    ghost use Rattle.std.specs.{Prelude.{◌<◌}, List.{All}};
    ghost use Rattle.um_base.specs.declared.limits.TheConstants.{ROWS, THREADS};
    ghost use Rattle.um_fine.specs.Context.{Context as OwnPart};
    ghost use Rattle.um_tables.specs.Contexts.{IsOwn, own_part};

    ghost Value = { OwnPart };

    ghost view = { λ c. own_part c.thread c.ended c.own c.claims.items c.noted };

    ghost invariant = { λ c. (c.thread < THREADS) × IsOwn c.own × All (λ x. x < ROWS) c.claims.items };
}

impl Context {
    /// The own part of no thread, for a processor that has none.
    pub fn idle() -> Context
        ensures { result ≡ no_context }
    {
        Context {
            thread: 0,
            ended: false,
            own: nobody(),
            claims: ArrayVec::new(),
            noted: None,
        }
    }

    /// The own part of a thread of the machine that is at rest.
    pub fn at_rest(thread: u8, me: &Thread) -> Context
        requires index { thread < THREADS }
        requires rests { rests me.now }
        ensures { result ≡ context_of thread me.now }
    {
        let registers = me.registers;
        let mut own = nobody();
        own.mode = me.mode;
        own.stack = me.stack;
        own.priority = me.priority;
        own.pool = me.pool;
        own.registers = registers;
        own.place = me.place;
        own.reply = me.reply;
        own.buffer = me.buffer;
        own.until = me.until;
        Context {
            thread,
            ended: false,
            own,
            claims: ArrayVec::new(),
            noted: None,
        }
    }

    /// The index of its thread.
    pub fn thread(&self) -> u8
        ensures value { result ≡ self.now.thread }
        ensures small { result < THREADS }
    {
        self.thread
    }

    pub fn has_ended(&self) -> bool
        ensures { result ≡ self.now.ended }
    {
        self.ended
    }

    /// Whether the thread waits until it is woken.
    pub fn waits(&self) -> bool
        ensures { result ≡ waits self.now.pending }
    {
        match self.own.pending.first() {
            Some(Pending::Resume) => true,
            _ => false,
        }
    }

    /// Takes this many pending steps off. If none is left, the thread is at rest at its next place.
    pub fn goes_on(&mut self, image: &Image, taken: usize)
        ensures { self.new ≡ goes_on image.now self.old (drop taken self.old.pending) }
    {
        self.own.goes_on(image, taken);
    }
}
