//! The place of a thread index among those who sleep.

ghost use Rattle.std.specs.Prelude.{◌≡◌, None, Some, is_some, unwrap_or, false, true};
ghost use Rattle.um_fine.specs.Context.{no_context};

use crate::context::Context;
use std::marker::Model;
use std::mem;

/// The place of a thread index: the thread, if it sleeps. The room for it is always there.
#[derive(Drop)]
pub struct Asleep {
    context: Box<Context>,
    is_there: bool,
}

impl Model for Asleep {
    ghost use Rattle.std.specs.Prelude.{Option};
    ghost use Rattle.um_fine.specs.Context.{Context as OwnPart};
    ghost use Rattle.um_tables.specs.Parked.{some_if};

    ghost Value = { Option OwnPart };

    ghost view = { λ p. some_if p.is_there p.context.value };
}

impl Asleep {
    /// An empty place, with room for a thread.
    pub fn empty(room: Box<Context>) -> Asleep
        ensures { result ≡ None }
    {
        Asleep {
            context: room,
            is_there: false,
        }
    }

    /// Puts a thread here, and gives the room for it back.
    pub fn put(&mut self, context: &mut Box<Context>)
        ensures { self.new ≡ Some (context.old.value) }
    {
        mem::swap(context, &mut self.context);
        self.is_there = true;
    }

    /// Takes the thread out, if it sleeps, and leaves the given room in its stead. Returns whether it did.
    pub fn take(&mut self, context: &mut Box<Context>) -> bool
        ensures there { result ≡ is_some self.old }
        ensures left { self.new ≡ None }
        ensures taken { result ≡ true → self.old ≡ Some (context.new.value) }
        ensures kept { result ≡ false → context.new ≡ context.old }
    {
        if !self.is_there {
            return false;
        }
        mem::swap(context, &mut self.context);
        self.is_there = false;
        true
    }
}
