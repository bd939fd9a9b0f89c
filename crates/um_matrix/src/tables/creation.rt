//! The steps that start a thread, and that give up its privilege.

ghost use Rattle.std.specs.{
  Prelude.{◌≡◌, ◌<◌, ◌==◌, [], drop, if◌then◌else◌, IsTrue, IfSome, length},
  Option.{option_copied},
};
ghost use Rattle.um_steps.specs.Accesses.{is_sized};

use crate::tables::Tables;
use um_base::{Instr, Mode, Row, THREADS, ThreadIx};
use um_machine::places::{first_place, instruction_at};
use um_machine::{Life, Pending, Thread};
use um_steps::blank::nobody;
use um_steps::order;
use um_steps::registers::put_begin;

/// Where and how a new thread starts.
#[derive(Clone, Copy)]
pub struct Beginning {
    pub script: u8,
    pub stack: Row,
    pub priority: i8,
    pub mode: Mode,
}

/// Replaces a thread by another one, but keeps its pending steps.
fn replace_but_steps(me: &mut Thread, born: Thread)
    ensures { me.new ≡ record born { pending = me.old.pending } }
{
    let mut born = born;
    std::mem::swap(&mut born.pending, &mut me.pending);
    *me = born;
}

impl<'a> Tables<'a> {
    ghost use Rattle.um_machine.specs.{
      Goes.{Next, went},
      State.{thread_at, with_thread, instruction_at},
      Table.{after, newborn},
    };

    /// The instruction at a thread's place. A load or store in it has at most four bytes.
    #[tactic(auto, using(um_steps::proofs::SizeLemmas::sized_instruction))]
    fn instruction(&self, t: usize) -> Option<&'a Instr>
        requires { t < THREADS }
        ensures value { option_copied result ≡ instruction_at self.now.image (thread_at self.now t).place }
        ensures sized { IfSome (instruction_at self.now.image (thread_at self.now t).place)
            (λ i. IsTrue (is_sized i)) }
    {
        instruction_at(self.image, self.threads[t].place)
    }

    /// A thread begins the instruction at its place.
    pub(crate) fn begin(&mut self, t: usize)
        requires { t < THREADS }
        ensures { self.new ≡ after self.old t 0 Pending.Begin [] }
    {
        if let Some(instr) = self.instruction(t) {
            let thread = &mut self.threads[t];
            order::begins(self.image, t, thread, instr);
            put_begin(&mut thread.registers, instr);
            thread.rests(self.image);
        }
    }

    /// A new thread, with its creator's pool and domain.
    fn newborn(&self, t: usize, who: ThreadIx, start: Beginning) -> Thread
        requires { t < THREADS }
        ensures { result ≡ newborn self.now (thread_at self.now t) who.0 start.script
            (Pending.Start who start.script start.stack start.priority start.mode) }
    {
        let me = &self.threads[t];
        let mut born = nobody();
        born.life = Life::Living;
        born.doomed = self.is_doomed(who);
        born.mode = start.mode;
        born.domain = me.domain;
        born.stack = start.stack;
        born.priority = start.priority;
        born.pool = me.pool;
        born.place = first_place(self.image, start.script);
        born.keeps_own = true;
        born
    }

    /// Whether a thread is doomed.
    fn is_doomed(&self, who: ThreadIx) -> bool
        ensures { result ≡ (thread_at self.now who.0).doomed }
    {
        match self.threads.get(who.0 as usize) {
            Some(thread) => thread.doomed,
            None => false,
        }
    }

    /// The start of a new thread.
    pub(crate) fn start(&mut self, t: usize, who: ThreadIx, start: Beginning, taken: usize)
        requires { t < THREADS }
        ensures { self.new ≡ after self.old t 0
            (Pending.Start who start.script start.stack start.priority start.mode)
            (drop taken (thread_at self.old t).pending) }
    {
        let born = self.newborn(t, who, start);
        self.place_born(t, who, born);
        self.creator_goes_on(t, taken);
    }

    /// Has a thread go on after it started the one that it created.
    fn creator_goes_on(&mut self, t: usize, taken: usize)
        requires { t < THREADS }
        ensures { self.new ≡ went (drop taken (thread_at self.old t).pending) self.old t Next.starts }
    {
        let me = &mut self.threads[t];
        me.child = None;
        me.goes_on(self.image, taken);
    }

    /// A new thread stands under its index. One that starts itself keeps the steps that are left.
    fn place_born(&mut self, t: usize, who: ThreadIx, born: Thread)
        requires { t < THREADS }
        ensures value { self.new ≡ with_thread self.old who.0
            (if who.0 == t then record born { pending = (thread_at self.old t).pending } else born) }
        ensures all { length self.old.threads ≡ THREADS }
    {
        if who.0 as usize == t {
            replace_but_steps(&mut self.threads[t], born);
        } else if (who.0 as usize) < THREADS {
            self.threads[who.0 as usize] = born;
        }
    }

    /// A thread goes on as a user, at the first line of a script.
    pub(crate) fn enter_user(&mut self, t: usize, script: u8, taken: usize)
        requires { t < THREADS }
        ensures { self.new ≡ after self.old t 0 (Pending.EnterUser script)
            (drop taken (thread_at self.old t).pending) }
    {
        let thread = &mut self.threads[t];
        thread.mode = Mode::User;
        thread.place = first_place(self.image, script);
        thread.pending.clear();
    }
}
