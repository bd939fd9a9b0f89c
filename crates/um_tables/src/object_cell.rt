//! The contents of an object's cell.

ghost use Rattle.std.specs.Prelude.{◌≡◌, ◌<◌, [], IsTrue, false, slice_set, true};
ghost use Rattle.um_base.specs.declared.limits.TheConstants.{THREADS};
ghost use Rattle.um_machine.specs.{
  Limits.{is_sound_ask},
  Services.{acted, in_order, runs_out},
  Table.{buffer_cost, message_size},
  Time.{has_run_out},
};
ghost use Rattle.um_service.specs.Left.{left};
ghost use Rattle.um_fine.specs.Seeking.{finds};
ghost use Rattle.um_tables.specs.{Looks.{left_by, look_sent}, ObjectCells.{cleared, named_as, wiped}};

use crate::look::Look;
use crate::slots::put;
use um_base::{Piece, THREADS, Waiter};
use um_machine::{Contents, Cost, Waiters};
use um_service::{Outcome, Woken, act, run_out};
use um_steps::buffers::message_size;
use um_steps::costs::buffer_cost;
use um_steps::time::has_run_out;

/// What an object keeps, who waits on it and what its buffer cost, and how many steps the cell has taken, below 2^28.
#[derive(Drop)]
pub struct ObjectCell {
    pub contents: Contents,
    pub waiters: Waiters,
    /// By thread index: the number of its note when it began to wait here.
    pub noted: [u32; THREADS],
    pub buffer: Option<Cost>,
    pub steps: u32,
}

impl ObjectCell {
    /// The contents of a row without an object, whose cell has taken no step.
    pub fn empty() -> ObjectCell
        ensures { result ≡ cleared 0 }
    {
        ObjectCell {
            contents: Contents::Nothing,
            waiters: Waiters::new(),
            noted: [0; THREADS],
            buffer: None,
            steps: 0,
        }
    }

    /// Does the work of a call whose thread has a note of this number, and writes its outcome.
    pub fn work(&mut self, who: &Waiter, noted: u32, outcome: &mut Outcome)
        requires thread { who.now.thread.0 < THREADS }
        requires sound { IsTrue (is_sound_ask who.now.ask) }
        ensures work { acted self.old.contents self.old.waiters who.now
            ≡ left self.new.contents self.new.waiters outcome.new }
        ensures buffer { self.new.buffer ≡ buffer_cost who.now.ask outcome.new.answer self.old.buffer }
        ensures noted { self.new.noted ≡ slice_set self.old.noted who.now.thread.0 noted }
        ensures steps { self.new.steps ≡ self.old.steps }
    {
        act(&mut self.contents, &mut self.waiters, who, outcome);
        put(&mut self.noted, who.thread.0 as usize, noted);
        self.buffer = buffer_cost(&who.ask, outcome.answer, self.buffer);
    }

    /// Gives a thread object this name.
    pub fn name(&mut self, bytes: &Piece)
        ensures { self.new ≡ named_as self.old bytes.now }
    {
        self.contents = Contents::Named(*bytes);
    }

    /// The size of the messages, or 0 if this is no queue.
    pub fn message_size(&self) -> u32
        ensures { result ≡ message_size self.now.contents }
    {
        message_size(&self.contents)
    }

    /// Clears the contents, and returns what the buffer cost.
    pub fn clear(&mut self) -> Option<Cost>
        ensures cost { result ≡ self.old.buffer }
        ensures left { self.new ≡ wiped self.old }
    {
        let buffer = self.buffer;
        self.contents = Contents::Nothing;
        self.waiters.clear();
        self.buffer = None;
        buffer
    }

    /// Takes a thread out that is looked for, if it waits here. Returns whether it did.
    pub fn look(&mut self, look: &Look) -> bool
        ensures found { result ≡ finds self.old.waiters self.old.noted (look_sent look.now) }
        ensures left { self.new ≡ record self.old { waiters = left_by result look.now self.old.waiters } }
    {
        look.take_out(&mut self.waiters, &self.noted)
    }

    /// Lets a timer run out whose deadline has come by now, and writes who is woken. Returns whether it is one.
    pub fn expire(&mut self, now: u64, woken: &mut Woken) -> bool
        ensures found { result ≡ has_run_out now self.old.contents }
        ensures left { let out = runs_out self.old.waiters (in_order self.old.waiters) in
            result ≡ true → (self.new ≡ record self.old { contents = out.0; waiters = out.1 }) × (woken.new ≡ out.2) }
        ensures kept { result ≡ false → (self.new ≡ self.old) × (woken.new ≡ []) }
    {
        if !has_run_out(now, &self.contents) {
            woken.clear();
            return false;
        }
        run_out(&mut self.contents, &mut self.waiters, woken);
        true
    }
}
