//! The place of a thread index in the scheduler's cell.

ghost use Rattle.std.specs.Prelude.{◌≡◌, IsTrue, Some, None, false, is_some, true, unwrap_or};
ghost use Rattle.um_fine.specs.{Context.{no_context}, Scheduler.{to_kill}};
ghost use Rattle.um_tables.specs.Parked.{some_if};

use crate::context::Context;
use std::marker::Model;
use um_base::{Piece, Reply, Told};

/// The place of a thread index: the thread, if no processor runs it, what it was told when it was woken, whether it was cut, and the priority
/// of the thread that was put here last. The room for all is always there.
#[derive(Drop)]
pub struct Parked {
    context: Box<Context>,
    is_there: bool,
    told: Told,
    is_told: bool,
    is_cut: bool,
    /// -16 to 14; a lower number is a higher priority.
    priority: i8,
}

impl Model for Parked {
    ghost use Rattle.um_tables.specs.Parked.{Parked as Place, some_if};

    ghost Value = { Place };

    ghost view = { λ p. record {
      context = some_if p.is_there p.context.value;
      told = some_if p.is_told p.told;
      priority = p.priority;
      cut = p.is_cut;
    } };
}

impl Parked {
    /// An empty place, with room for a thread.
    pub fn empty(room: Box<Context>) -> Parked
        ensures { result ≡ record { context = None; told = None; priority = room.value.priority; cut = false } }
    {
        Parked::of(room, false)
    }

    /// The place of a thread that is told nothing. `is_there` says whether the thread is there, or only the room for it.
    pub fn of(context: Box<Context>, is_there: bool) -> Parked
        ensures { result ≡ record {
          context = some_if is_there context.value;
          told = None;
          priority = context.value.priority;
          cut = false;
        } }
    {
        let priority = context.priority();
        Parked {
            context,
            is_there,
            told: Told {
                reply: Reply::Void,
                taken: Piece::new(),
            },
            is_told: false,
            is_cut: false,
            priority,
        }
    }

    /// Whether a thread is there.
    pub fn is_there(&self) -> bool
        ensures { result ≡ is_some self.now.context }
    {
        self.is_there
    }

    /// Whether it was told something.
    pub fn is_told(&self) -> bool
        ensures { result ≡ is_some self.now.told }
    {
        self.is_told
    }

    /// Whether it was cut.
    pub fn is_cut(&self) -> bool
        ensures { result ≡ self.now.cut }
    {
        self.is_cut
    }

    /// Takes the thread out, leaves the given room in its stead, and writes what the thread was told. One that was cut is to be killed.
    /// Returns whether it was told something.
    pub fn take(&mut self, context: &mut Box<Context>, told: &mut Told) -> bool
        requires { IsTrue (is_some self.old.context) }
        ensures left { self.new ≡ record self.old { context = None; told = None; cut = false } }
        ensures context { context.new.value ≡ to_kill self.old.cut (unwrap_or self.old.context no_context) }
        ensures told { some_if result told.new ≡ self.old.told }
    {
        std::mem::swap(context, &mut self.context);
        self.is_there = false;
        let woken = self.is_told;
        if woken {
            *told = self.told;
        }
        self.is_told = false;
        if self.is_cut {
            context.is_to_be_killed();
            self.is_cut = false;
        }
        woken
    }

    /// Puts a thread here, and gives the room for it back.
    pub fn put(&mut self, context: &mut Box<Context>)
        ensures { self.new ≡ record self.old {
          context = Some (context.old.value);
          priority = context.old.value.priority;
        } }
    {
        std::mem::swap(context, &mut self.context);
        self.priority = self.context.priority();
        self.is_there = true;
    }

    /// The priority of the thread that was put here last.
    pub fn priority(&self) -> i8
        ensures { result ≡ self.now.priority }
    {
        self.priority
    }

    /// Leaves this for the thread to be told.
    pub fn tell(&mut self, told: &Told)
        ensures { self.new ≡ record self.old { told = Some told.now } }
    {
        self.told = *told;
        self.is_told = true;
    }

    /// The thread was cut.
    pub fn cut(&mut self)
        ensures { self.new ≡ record self.old { cut = true } }
    {
        self.is_cut = true;
    }
}
