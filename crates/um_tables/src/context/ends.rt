//! How a thread ends, drops its permissions and dooms the others.

ghost use Rattle.std.specs.Prelude.{◌≡◌, ◌∷◌, drop};
ghost use Rattle.um_machine.specs.declared.pending.Pending.TheVariants as Pending;
ghost use Rattle.um_machine.specs.{Order.{end_steps, fatal_steps}, Table.{next_doom}};
ghost use Rattle.um_fine.specs.{Context.{as_thread}, Continues.{ends_with}};

use crate::context::Context;
use um_base::Image;
use um_machine::Pending;
use um_steps::order::{end_steps, fatal_steps, next_doom};

impl Context {
    /// Ends after its last line.
    pub fn exits(&mut self, image: &Image)
        ensures { self.new ≡ ends_with image.now self.old
            (end_steps image.now self.old.thread (as_thread self.old)) }
    {
        self.ended = true;
        self.claims.clear();
        end_steps(image, self.thread as usize, &mut self.own);
        self.own.until = None;
        self.noted = None;
    }

    /// Fails: it ends, or dooms all.
    pub fn fails(&mut self, image: &Image, reason: u8)
        ensures { self.new ≡ ends_with image.now self.old
            (fatal_steps image.now self.old.thread (as_thread self.old) reason image.now.policy) }
    {
        self.ended = true;
        self.claims.clear();
        fatal_steps(image, self.thread as usize, &mut self.own, reason);
        self.own.until = None;
        self.noted = None;
    }

    /// The rows from this one on are still to be visited, to drop its permissions.
    pub fn drops_from(&mut self, from: u8)
        ensures { self.new ≡ record self.old { pending = Pending.Drops from ∷ drop 1 self.old.pending } }
    {
        self.own.pending.replace(&Pending::Drops { from });
    }

    /// Goes on with the doom of the thread after this one, if there is one.
    pub fn dooms(&mut self, from: u8)
        ensures { self.new ≡ record self.old { pending = next_doom from } }
    {
        next_doom(&mut self.own.pending, from);
    }
}
