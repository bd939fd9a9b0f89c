//! The own part of a new thread.

ghost use Rattle.std.specs.Prelude.{◌≡◌, ◌<◌};
ghost use Rattle.um_base.specs.declared.limits.TheConstants.{THREADS};
ghost use Rattle.um_tables.specs.Contexts.{born};

use crate::context::Context;
use crate::newborn::Newborn;

impl Context {
    /// Becomes the own part of a new thread.
    pub fn becomes(&mut self, newborn: &Newborn)
        requires { newborn.now.thread.0 < THREADS }
        ensures { self.new ≡ born newborn.now }
    {
        *self = Context::idle();
        self.thread = newborn.thread.0;
        self.own.mode = newborn.mode;
        self.own.stack = newborn.stack;
        self.own.priority = newborn.priority;
        self.own.pool = newborn.pool;
        self.own.place = newborn.place;
    }
}
